ghost use Rattle.std.specs.Prelude.{◌^◌, ◌-◌, ◌<◌, IfOk, Ok, length};
ghost use Rattle.dt_lex.specs.Reading.{Gives};
ghost use Rattle.dt_model.specs.Accepted.{accepted_data};
ghost use Rattle.dt_request.specs.declared.list.Requests.{Requests};
ghost use Rattle.dt_request.specs.Lists.{IsList};
ghost use Rattle.dt_request.specs.Fault.{is_memory};
ghost use Rattle.dt_request.specs.Read.{reading};
ghost use Rattle.dt_request.specs.Spelling.{IsListText};

use crate::draft::Draft;
use crate::entry::{SECTIONS, meaning};
use crate::fault::{Cause, RequestFault, at_line};
use crate::known::Known;
use crate::line::read_line;
use crate::list::Requests;
use dt_lex::{LexFault, Reader, read_text};
use dt_model::Accepted;
use std::alloc::Global;

/// Reads the request lists of a model.
#[derive(Drop)]
struct ListReader<'a> {
    alloc: Global,
    known: Known<'a>,
}

impl<'a> Reader for ListReader<'a> {
    ghost use Rattle.dt_lex.specs.Reading.{Gives};
    ghost use Rattle.dt_model.specs.Accepted.{accepted_data};
    ghost use Rattle.dt_request.specs.declared.list.Requests.{Requests};
    ghost use Rattle.dt_request.specs.declared.entry.Entry.{Entry};
    ghost use Rattle.dt_request.specs.declared.fault.Cause.{Cause};
    ghost use Rattle.dt_request.specs.Fault.{is_memory};
    ghost use Rattle.dt_request.specs.Lists.{IsList};
    ghost use Rattle.dt_request.specs.Entry.{Declared};
    ghost use Rattle.dt_request.specs.Draft.{declared_by, added, IsDraft};
    ghost use Rattle.dt_request.specs.Read.{grammar, finished};
    ghost use Rattle.dt_request.specs.Laws.{adds_up};

    type Draft = Draft;

    type Value = Requests;

    type Fault = RequestFault;

    ghost Entry = { Entry };

    ghost Declared = { Declared };

    ghost Cause = { Cause };

    ghost Meaning = { Requests };

    ghost grammar = { λ r. grammar (accepted_data r.known.model.now) };

    ghost added = { added };

    ghost finished = { λ r. finished };

    ghost declared_by = { declared_by };

    ghost meaning_of = { λ list. list };

    ghost is_memory = { is_memory };

    ghost valid = { λ r n d. IsDraft (accepted_data r.known.model.now) d };

    ghost sound = { λ r list. IsList (accepted_data r.known.model.now) list };

    ghost adds_up = { λ r. adds_up };

    ghost valid_later = { λ r n d h. h };

    #[tactic(auto, unfolding(crate::specs::Draft::declared))]
    fn start(&self) -> Draft {
        Draft::new(self.alloc)
    }

    fn lexical(&self, fault: LexFault) -> RequestFault {
        RequestFault::Lex(fault)
    }

    fn add(
        &self,
        draft: &mut Draft,
        number: u32,
        word: &[u8],
        rest: &[u8],
    ) -> Result<(), RequestFault> {
        match meaning(&self.known, draft, read_line(word, rest)) {
            Err(cause) => Err(at_line(number, cause)),
            Ok(entry) => {
                draft.add(self.alloc, entry)?;
                Ok(())
            }
        }
    }

    fn finish(&self, draft: Draft, number: u32) -> Result<Requests, RequestFault> {
        if draft.place != SECTIONS.len() {
            return Err(at_line(number, Cause::Form));
        }
        Ok(draft.into_list())
    }
}

/// The list of the model that the text spells, read in one pass: the time is linear in the text,
/// and names are looked up by their hash. Memory holds the list, and where the names of the list
/// and of the model stand.
///
/// # Errors
///
/// The first bad line, counted from 1, and the first thing that is wrong with it; `Memory` where
/// memory ran out. A text that ends without `end` has the fault `Form` at the line after its last.
#[tactic(auto, unfolding(crate::specs::Read::reading))]
pub fn read_requests(
    alloc: Global,
    model: &Accepted,
    bytes: &[u8],
) -> Result<Requests, RequestFault>
    requires { length bytes.now < 2 ^ 32 - 1 }
    ensures read { Gives is_memory (λ r. r) result (reading (accepted_data model.now) bytes.now) }
    ensures list { IfOk result (IsList (accepted_data model.now)) }
    // Its lines spell the list, and each list that they spell, however they are written, is this one.
    ensures text { IfOk result (IsListText (accepted_data model.now) bytes.now) }
    ensures spelled { (list : Requests) → IsListText (accepted_data model.now) bytes.now list
        → Gives is_memory (λ r. r) result (Ok list) }
{
    let known = Known::new(alloc, model)?;
    read_text(&ListReader { alloc, known }, bytes)
}
