ghost use Rattle.std.specs.Prelude.{◌≡◌, ◌==◌, ◌||◌, ◌&&◌, ◌+◌, ◌-◌, ◌*◌, ◌/◌, ◌%◌, ◌<◌, ◌≤◌, ◌^◌, ℕ, Bool, true, false, not, length, slice_index, IfOk, IfSome, MatchOption, if◌then◌else◌};
ghost use Rattle.dt_bits.specs.Bits.{bit};
ghost use Rattle.dt_propagate.specs.Marks.{is_marked, AreCovered, HasRoom, IsNextMark, IsNextBelow};

use dt_bits::NoMemory;
use std::alloc::Global;

// A set of positions, one bit for each, and above them one bit for each word: it is 1 where the word
// isn't 0. So words that are 0 are passed over 64 at a time.
#[derive(Drop)]
pub(crate) struct Bits {
    pub(crate) words: Vec<u64>,
    tops: Vec<u64>,
    ghost covered: { AreCovered words.items tops.items },
}

// The lowest bit of a word from bit k on that is 1.
fn next_in(word: u64, k: u32) -> Option<u32>
    requires { k < 64 }
    ensures { MatchOption result ((i : ℕ) → k ≤ i → i < 64 → bit word i ≡ false) (λ t. (k ≤ t) × (t < 64) × (bit word t ≡ true) × ((i : ℕ) → k ≤ i → i < t → bit word i ≡ false)) }
{
    let rest = word >> k;
    if rest == 0 {
        return None;
    }
    Some(k + rest.trailing_zeros())
}

// What stands above words that are all this one: all bits, unless the word is 0.
fn top_of(word: u64) -> u64
    ensures { result ≡ (if word == 0 then 0 else 2 ^ 64 - 1) }
{
    if word == 0 { 0 } else { u64::MAX }
}

// Adds a position to a set.
fn add(words: &mut Vec<u64>, at: u32)
    requires { at / 64 < length words.old.items }
    ensures marks { (i : ℕ) → is_marked words.new.items i ≡ (i == at || is_marked words.old.items i) }
    ensures len { length words.new.items ≡ length words.old.items }
{
    let word = &mut words[(at / 64) as usize];
    *word = *word | 1 << at % 64;
}

// Takes a position out of a set.
fn take_away(words: &mut Vec<u64>, at: u32)
    requires { at / 64 < length words.old.items }
    ensures marks { (i : ℕ) → is_marked words.new.items i ≡ (not (i == at) && is_marked words.old.items i) }
    ensures len { length words.new.items ≡ length words.old.items }
{
    let word = &mut words[(at / 64) as usize];
    *word = *word & !(1 << at % 64);
}

// The first position from this one on, found word by word.
fn next_of(words: &[u64], from: u32) -> Option<u32>
    requires { length words.now ≤ 2 ^ 26 }
    ensures { IsNextMark words.now from result }
{
    let first = (from / 64) as usize;
    if first >= words.len() {
        return None;
    }
    match next_in(words[first], from % 64) {
        Some(bit) => return Some(first as u32 * 64 + bit),
        None => {}
    }
    for word in first + 1..words.len() {
        match next_in(words[word], 0) {
            Some(bit) => return Some(word as u32 * 64 + bit),
            None => {}
        }
    }
    None
}

impl Bits {
    ghost use Rattle.std.specs.Prelude.{◌≡◌, ◌==◌, ◌||◌, ◌&&◌, ◌+◌, ◌*◌, ◌/◌, ◌%◌, ◌<◌, ◌≤◌, ◌^◌, ℕ, not, length, IfOk};
    ghost use Rattle.dt_bits.specs.Bits.{bit};
    ghost use Rattle.dt_propagate.specs.Marks.{is_marked, HasRoom, IsNextMark, IsNextBelow};

    // No position, or all, of this count.
    pub(crate) fn new(alloc: Global, count: usize, word: u64) -> Result<Bits, NoMemory>
        requires { count < 2 ^ 32 }
        ensures room { IfOk result (λ bits. HasRoom count bits.words.items) }
        ensures words { IfOk result (λ bits. (i : ℕ) → i < count → is_marked bits.words.items i ≡ bit word (i % 64)) }
    {
        Ok(Bits {
            words: vec![in alloc; word; count / 64 + 1]?,
            tops: vec![in alloc; top_of(word); count / 4096 + 1]?,
        })
    }

    // Adds a position.
    pub(crate) fn mark(&mut self, at: u32)
        requires { at / 64 < length self.old.words.items }
        ensures marks { (i : ℕ) → is_marked self.new.words.items i ≡ (i == at || is_marked self.old.words.items i) }
        ensures len { length self.new.words.items ≡ length self.old.words.items }
    {
        add(&mut self.tops, at / 64);
        add(&mut self.words, at);
    }

    // Takes a position away.
    pub(crate) fn unmark(&mut self, at: u32)
        requires { at / 64 < length self.old.words.items }
        ensures marks { (i : ℕ) → is_marked self.new.words.items i ≡ (not (i == at) && is_marked self.old.words.items i) }
        ensures len { length self.new.words.items ≡ length self.old.words.items }
    {
        take_away(&mut self.words, at);
        if self.words[(at / 64) as usize] == 0 {
            take_away(&mut self.tops, at / 64);
        }
    }

    // The first position from this word on.
    fn next_after(&self, first: u32) -> Option<u32>
        requires len { length self.now.words.items ≤ 2 ^ 26 }
        requires first { first ≤ length self.now.words.items }
        ensures { IsNextMark self.now.words.items (first * 64) result }
    {
        let mut from = first;
        'words: while let Some(word) = next_of(&self.tops, from) {
            if word as usize >= self.words.len() {
                return None;
            }
            match next_in(self.words[word as usize], 0) {
                Some(bit) => return Some(word * 64 + bit),
                None => {}
            }
            from = word + 1;
        }
        None
    }

    // The first position from this one on.
    pub(crate) fn next(&self, from: u32) -> Option<u32>
        requires { length self.now.words.items ≤ 2 ^ 26 }
        ensures { IsNextMark self.now.words.items from result }
    {
        let first = (from / 64) as usize;
        if first >= self.words.len() {
            return None;
        }
        match next_in(self.words[first], from % 64) {
            Some(bit) => Some(first as u32 * 64 + bit),
            None => self.next_after(first as u32 + 1),
        }
    }

    // The first position from this one on, if it is below the end.
    pub(crate) fn next_below(&self, from: u32, end: u32) -> Option<u32>
        requires { length self.now.words.items ≤ 2 ^ 26 }
        ensures { IsNextBelow self.now.words.items from end result }
    {
        match self.next(from) {
            None => None,
            Some(at) => if at < end { Some(at) } else { None },
        }
    }
}
