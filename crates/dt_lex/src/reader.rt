ghost use Rattle.std.specs.Prelude.{◌≡◌, ◌+◌, ◌-◌, ◌^◌, ◌<◌, ◌∷◌, [], ℕ, List, Bool, Result, length, OnOk, IfOk};
ghost use Rattle.dt_lex.specs.Text.{tokens_of};
ghost use Rattle.dt_lex.specs.declared.fault.LexFault.{LexFault};
ghost use Rattle.dt_lex.specs.Reading.{Grammar, Gives, AddsUp, row_added, line_added, reading_of};

use crate::fault::LexFault;
use crate::text::{fault_in, next_line, next_token};

/// How the texts of one kind are read. A draft holds what the lines so far declare; each further
/// line that has a token is added to it, or is at fault; and at the end of the text the draft gives
/// the value, or lacks its last line.
pub trait Reader {
    /// What the lines so far declare.
    type Draft: Drop;
    /// What a text spells.
    type Value: Drop;
    /// Why a text is refused.
    type Fault: Drop;

    // what a line adds to a text, what such entries declare, what may be wrong with a line, and what a text means
    ghost Entry: { Type 0 };

    ghost Declared: { Type 0 };

    ghost Cause: { Type 0 };

    ghost Meaning: { Type 0 };

    // what each line means after those before it
    ghost grammar: { Self → Grammar Self.Entry Self.Declared Self.Cause Self.Fault };

    // what one more entry adds
    ghost added: { Self.Declared → Self.Entry → Self.Declared };

    // the meaning of a text whose lines have declared this and ended before the line of this number
    ghost finished: { Self → ℕ → Self.Declared → Result Self.Meaning Self.Fault };

    // a draft and a value, as what they stand for
    ghost declared_by: { Self.Draft → Self.Declared };

    ghost meaning_of: { Self.Value → Self.Meaning };

    ghost is_memory: { Self.Fault → Bool };

    // what holds of the draft of the lines before the one of this number, and of each value that is read
    ghost valid: { Self → ℕ → Self.Draft → Type 0 };

    ghost sound: { Self → Self.Value → Type 0 };

    /// What no line declares.
    fn start(&self) -> Self::Draft
        ensures value { declared_by result ≡ (grammar self.now).declared [] }
        ensures valid { valid self.now 1 result };

    /// The fault of a line's bytes.
    fn lexical(&self, fault: LexFault) -> Self::Fault
        ensures { result ≡ (grammar self.now).lexical fault };

    /// Adds the line of this number, by its first token and the text behind it.
    fn add(
        &self,
        draft: &mut Self::Draft,
        number: u32,
        word: &[u8],
        rest: &[u8],
    ) -> Result<(), Self::Fault>
        requires { valid self.now number draft.old }
        ensures added { Gives is_memory (λ _. declared_by draft.new) result
            (row_added (grammar self.now) added number (declared_by draft.old) word.now (tokens_of rest.now)) }
        ensures valid { OnOk result (valid self.now (number + 1) draft.new) };

    /// The value of a text that has ended before the line of this number.
    fn finish(&self, draft: Self::Draft, number: u32) -> Result<Self::Value, Self::Fault>
        requires { valid self.now number draft }
        ensures value { Gives is_memory meaning_of result (finished self.now number (declared_by draft)) }
        ensures sound { IfOk result (sound self.now) };

    // what entries declare is found by adding them one by one
    ghost adds_up: { (s : Self) → AddsUp (grammar s) added };

    // lines without tokens leave a draft as it was
    ghost valid_later: { (s : Self) (n : ℕ) (d : Self.Draft) → valid s n d → valid s (n + 1) d };
}

/// Reads the line of this number into the draft, or gives its fault.
#[tactic(auto, unfolding(crate::specs::Reading::line_entry), using(crate::proofs::Loop::line_lexical, crate::proofs::Loop::line_empty, crate::proofs::Loop::line_row))]
fn add_line<R: Reader>(
    reader: &R,
    draft: &mut R::Draft,
    number: u32,
    line: &[u8],
) -> Result<(), R::Fault>
    requires { R.valid reader.now number draft.old }
    ensures added { Gives R.is_memory (λ _. R.declared_by draft.new) result
        (line_added (R.grammar reader.now) R.added number (R.declared_by draft.old) line.now) }
    ensures valid { OnOk result (R.valid reader.now (number + 1) draft.new) }
{
    if let Some(fault) = fault_in(number, line) {
        return Err(reader.lexical(fault));
    }
    match next_token(line) {
        None => Ok(()),
        Some((word, rest)) => reader.add(draft, number, word, rest),
    }
}

/// What a text spells, read line by line: the value of the text, or the fault of its first bad line.
pub fn read_text<R: Reader>(reader: &R, text: &[u8]) -> Result<R::Value, R::Fault>
    requires { length text.now < 2 ^ 32 - 1 }
    ensures value { Gives R.is_memory R.meaning_of result
        (reading_of (R.grammar reader.now) (R.finished reader.now) text.now) }
    ensures sound { IfOk result (R.sound reader.now) }
{
    let mut draft = reader.start();
    let mut number = 1u32;
    let mut rest = text;
    while let Some((line, after)) = next_line(rest) {
        add_line(reader, &mut draft, number, line)?;
        number += 1;
        rest = after;
    }
    reader.finish(draft, number)
}
