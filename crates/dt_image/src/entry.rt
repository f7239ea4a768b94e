ghost use Rattle.std.specs.Prelude.{◌≡◌, ◌^◌, ◌<◌, nat_lt, length};
ghost use Rattle.dt_model.specs.Accepted.{accepted_data};
ghost use Rattle.dt_image.specs.Entry.{standing, all_fit, values_cause, word_fits, is_above, access_entry, word_entry, entry_of, meaning};

use crate::draft::Draft;
use crate::fault::Cause;
use crate::image::ImageAccess;
use crate::line::Line;
use dt_bits::{Seq, Word};
use dt_lex::{ANY, ONE, Section, Standing, may_follow};
use dt_model::{Accepted, Named, bounds_fit, word_bytes};

/// What a line adds to an image.
#[derive(Debug, Drop)]
pub enum Entry {
    Header,
    Tables(u128, u128),
    Context(Seq<u128>),
    Access(ImageAccess),
    Word(Word),
    End,
}

/// The header, the bounds, contexts, accesses, words, and the end.
pub const SECTIONS: [Section; 6] = [ONE, ONE, ANY, ANY, ANY, ONE];

fn standing(line: &Line) -> Standing
    ensures { result ≡ standing line.now }
{
    match line {
        Line::Header => Standing::In(0),
        Line::Tables(_, _) => Standing::In(1),
        Line::Context(_) => Standing::In(2),
        Line::Access(_, _) => Standing::In(3),
        Line::Word(_) => Standing::In(4),
        Line::End => Standing::In(5),
    }
}

#[tactic(auto, using(crate::proofs::Widths::wide_fits, crate::proofs::Widths::quotient_fits))]
fn fits(width: u32, value: u128) -> bool
    ensures { result ≡ nat_lt value (2 ^ width) }
{
    width >= 128 || value >> width == 0
}

#[tactic(auto, using(crate::proofs::Widths::fit_stop, crate::proofs::Widths::fit_more, crate::proofs::Widths::fit_end))]
fn all_fit(names: &[Named], values: &[u128]) -> bool
    requires { length names.now ≡ length values.now }
    ensures { result ≡ all_fit names.now values.now }
{
    for (i, name) in names.iter().enumerate() {
        if !fits(name.width, values[i]) {
            return false;
        }
    }
    true
}

/// What is wrong with the values of these names, if anything.
fn values_cause(names: &[Named], values: &[u128]) -> Option<Cause>
    ensures { result ≡ values_cause names.now values.now }
{
    if values.len() != names.len() {
        Some(Cause::Shape)
    } else if all_fit(names, values) {
        None
    } else {
        Some(Cause::OutOfRange)
    }
}

fn word_fits(model: &Accepted, bounds: (u128, u128), word: Word) -> bool
    ensures { result ≡ word_fits (accepted_data model.now) bounds word }
{
    word.address % u128::from(word_bytes(model)) == 0
        && bounds.0 <= word.address
        && word.address < bounds.1
        && fits(model.model().word, word.value)
}

#[tactic(auto, using(crate::proofs::Rising::above_at))]
fn is_above(words: &[Word], address: u128) -> bool
    ensures { result ≡ is_above words.now address }
{
    if words.is_empty() {
        return true;
    }
    words[words.len() - 1].address < address
}

fn access_entry(
    model: &Accepted,
    draft: &Draft,
    position: u128,
    inputs: Seq<u128>,
) -> Result<Entry, Cause>
    requires { length draft.now.contexts < 2 ^ 32 }
    ensures { result ≡ access_entry (accepted_data model.now) draft.now position inputs }
{
    if position >= draft.contexts.len() as u128 {
        return Err(Cause::Shape);
    }
    match values_cause(model.model().inputs.as_slice(), inputs.as_slice()) {
        Some(cause) => Err(cause),
        None => Ok(Entry::Access(ImageAccess {
            context: position as u32,
            inputs,
        })),
    }
}

fn word_entry(model: &Accepted, draft: &Draft, word: Word) -> Result<Entry, Cause>
    ensures { result ≡ word_entry (accepted_data model.now) draft.now word }
{
    if !word_fits(model, draft.bounds, word) {
        Err(Cause::OutOfRange)
    } else if is_above(draft.words.as_slice(), word.address) {
        Ok(Entry::Word(word))
    } else {
        Err(Cause::Order)
    }
}

fn entry_of(model: &Accepted, draft: &Draft, line: Line) -> Result<Entry, Cause>
    requires { length draft.now.contexts < 2 ^ 32 }
    ensures { result ≡ entry_of (accepted_data model.now) draft.now line }
{
    match line {
        Line::Header => Ok(Entry::Header),
        Line::Tables(lo, hi) => {
            if bounds_fit(model, lo, hi) {
                Ok(Entry::Tables(lo, hi))
            } else {
                Err(Cause::OutOfRange)
            }
        }
        Line::Context(values) => {
            match values_cause(model.model().regs.as_slice(), values.as_slice()) {
                Some(cause) => Err(cause),
                None => Ok(Entry::Context(values)),
            }
        }
        Line::Access(position, inputs) => access_entry(model, draft, position, inputs),
        Line::Word(word) => word_entry(model, draft, word),
        Line::End => Ok(Entry::End),
    }
}

/// What a line means after those that were drafted, or the first thing that is wrong with it.
pub fn meaning(model: &Accepted, draft: &Draft, line: Option<Line>) -> Result<Entry, Cause>
    requires { length draft.now.contexts < 2 ^ 32 }
    ensures { result ≡ meaning (accepted_data model.now) draft.now line }
{
    match line {
        None => Err(Cause::Form),
        Some(line) => {
            if may_follow(&SECTIONS, draft.place, standing(&line)) {
                entry_of(model, draft, line)
            } else {
                Err(Cause::Form)
            }
        }
    }
}
