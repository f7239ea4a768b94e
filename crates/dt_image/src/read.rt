ghost use Rattle.std.specs.Prelude.{◌^◌, ◌-◌, ◌<◌, length, IfOk};
ghost use Rattle.dt_lex.specs.Reading.{Gives};
ghost use Rattle.dt_model.specs.Accepted.{accepted_data};
ghost use Rattle.dt_image.specs.Images.{IsImage};
ghost use Rattle.dt_image.specs.Fault.{is_memory};
ghost use Rattle.dt_image.specs.Read.{reading};

use crate::draft::Draft;
use crate::entry::{SECTIONS, meaning};
use crate::fault::{Cause, ImageFault, at_line};
use crate::image::Image;
use crate::line::read_line;
use dt_bits::TableMemory;
use dt_lex::{LexFault, Reader, read_text};
use dt_model::{Accepted, word_bytes};
use std::alloc::Global;

/// Reads the images of a model.
#[derive(Clone, Copy)]
struct ImageReader<'a> {
    alloc: Global,
    model: &'a Accepted,
}

impl<'a> Reader for ImageReader<'a> {
    ghost use Rattle.dt_lex.specs.Reading.{Gives};
    ghost use Rattle.dt_model.specs.Accepted.{accepted_data};
    ghost use Rattle.dt_image.specs.declared.image.Image.{Image};
    ghost use Rattle.dt_image.specs.declared.entry.Entry.{Entry};
    ghost use Rattle.dt_image.specs.declared.draft.Draft.{Draft};
    ghost use Rattle.dt_image.specs.declared.fault.Cause.{Cause};
    ghost use Rattle.dt_image.specs.Images.{IsImage};
    ghost use Rattle.dt_image.specs.Fault.{is_memory};
    ghost use Rattle.dt_image.specs.Draft.{added, IsDraft};
    ghost use Rattle.dt_image.specs.Read.{grammar, finished};
    ghost use Rattle.dt_image.specs.Laws.{adds_up, draft_later};

    type Draft = Draft;

    type Value = Image;

    type Fault = ImageFault;

    ghost Entry = { Entry };

    ghost Declared = { Draft };

    ghost Cause = { Cause };

    ghost Meaning = { Image };

    ghost grammar = { λ r. grammar (accepted_data r.model.now) };

    ghost added = { added };

    ghost finished = { λ r. finished (accepted_data r.model.now) };

    ghost declared_by = { λ d. d };

    ghost meaning_of = { λ i. i };

    ghost is_memory = { is_memory };

    ghost valid = { λ r n d. IsDraft (accepted_data r.model.now) n d };

    ghost sound = { λ r i. IsImage (accepted_data r.model.now) i };

    ghost adds_up = { λ r. adds_up };

    ghost valid_later = { λ r n d h. draft_later (accepted_data r.model.now) n d h };

    #[tactic(auto, unfolding(crate::specs::Draft::declared))]
    fn start(&self) -> Draft {
        Draft::new(self.alloc)
    }

    fn lexical(&self, fault: LexFault) -> ImageFault {
        ImageFault::Lex(fault)
    }

    fn add(
        &self,
        draft: &mut Draft,
        number: u32,
        word: &[u8],
        rest: &[u8],
    ) -> Result<(), ImageFault> {
        let line = read_line(self.alloc, word, rest)?;
        match meaning(self.model, draft, line) {
            Err(cause) => Err(at_line(number, cause)),
            Ok(entry) => {
                draft.add(entry)?;
                Ok(())
            }
        }
    }

    fn finish(&self, draft: Draft, number: u32) -> Result<Image, ImageFault> {
        if draft.place != SECTIONS.len() {
            return Err(at_line(number, Cause::Form));
        }
        Ok(Image {
            memory: TableMemory {
                bytes: word_bytes(self.model),
                lo: draft.bounds.0,
                hi: draft.bounds.1,
                words: draft.words,
            },
            contexts: draft.contexts,
            accesses: draft.accesses,
        })
    }
}

/// The image that a text spells for a model, which is an image of the model, or the first bad line
/// and the first of its causes.
pub fn read_image(alloc: Global, model: &Accepted, bytes: &[u8]) -> Result<Image, ImageFault>
    requires { length bytes.now < 2 ^ 32 - 1 }
    ensures value { Gives is_memory (λ image. image) result
        (reading (accepted_data model.now) bytes.now) }
    ensures of_model { IfOk result (IsImage (accepted_data model.now)) }
{
    read_text(&ImageReader { alloc, model }, bytes)
}
