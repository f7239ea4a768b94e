use crate::draft::Draft;
use crate::entry::read_entry;
use crate::fault::ModelFault;
use crate::origins::Origins;
use dt_lex::{LexFault, Reader};
use dt_model::{Model, NameTable};
use std::alloc::Global;

/// Reads the text of a model whose nodes stand where the table has them.
#[derive(Drop)]
pub struct ModelReader {
    pub alloc: Global,
    pub nodes: NameTable,
}

impl Reader for ModelReader {
    ghost use Rattle.std.specs.Prelude.{ℕ};
    ghost use Rattle.dt_model.specs.NameTable.{found_in};
    ghost use Rattle.dt_modeltext.specs.Fault.{Cause as CauseOfLine, is_memory};
    ghost use Rattle.dt_modeltext.specs.Entry.{Entry as EntryOfText, Declared as DeclaredByText};
    ghost use Rattle.dt_modeltext.specs.Draft.{declared_by as draft_declares, read_as, added as declared_with, IsDraft};
    ghost use Rattle.dt_modeltext.specs.Read.{grammar as model_grammar, finished as finished_at};
    ghost use Rattle.dt_modeltext.specs.Laws.{adds_up as declared_adds_up, valid_later as is_draft_later};

    type Draft = Draft;

    type Value = (Model, Origins);

    type Fault = ModelFault;

    ghost Entry = { EntryOfText };

    ghost Declared = { DeclaredByText };

    ghost Cause = { CauseOfLine };

    ghost Meaning = { DeclaredByText };

    ghost grammar = { λ r. model_grammar (found_in r.nodes) };

    ghost added = { declared_with };

    ghost finished = { λ r n d. finished_at n d };

    ghost declared_by = { draft_declares };

    ghost meaning_of = { read_as };

    ghost is_memory = { is_memory };

    ghost valid = { λ r n d. IsDraft n d };

    ghost sound = { λ r x. Unit {0} };

    fn start(&self) -> Draft {
        Draft::new(self.alloc)
    }

    fn lexical(&self, fault: LexFault) -> ModelFault {
        ModelFault::Lex(fault)
    }

    fn add(
        &self,
        draft: &mut Draft,
        number: u32,
        word: &[u8],
        rest: &[u8],
    ) -> Result<(), ModelFault> {
        let line = read_entry(self.alloc, &self.nodes, draft, number, word, rest)?;
        draft.add(line, number)?;
        Ok(())
    }

    fn finish(&self, draft: Draft, number: u32) -> Result<(Model, Origins), ModelFault> {
        if draft.is_ended() {
            Ok(draft.into_parts())
        } else {
            Err(ModelFault::Form(number))
        }
    }

    ghost adds_up = { λ r. declared_adds_up (found_in r.nodes) };

    ghost valid_later = { λ r n d h. is_draft_later n d h };
}
