ghost use Rattle.std.specs.Prelude.{◌≡◌, ◌≤◌, ◌<◌, length, MatchOption};
ghost use Rattle.dt_check.specs.Marks.{AreCovered, HasNone, IsFirst};

use dt_bits::NoMemory;
use std::alloc::Global;

// How many marks a block has.
const BLOCK: usize = 512;

/// Marks of numbers below a count, in blocks. A block is passed over as a whole where no number of it
/// was marked since the marks were last cleared.
#[derive(Drop)]
pub(crate) struct Marks {
    marks: Vec<bool>,
    // Whether a block may have a mark.
    blocks: Vec<bool>,
    ghost covered: { AreCovered marks.items blocks.items },
}

// The first number in a range that is marked.
fn first_between(marks: &[bool], from: usize, to: usize) -> Option<usize>
    ensures { MatchOption result (HasNone marks.now from to) (λ at. IsFirst marks.now from at × (at < to)) }
{
    for at in from..to.min(marks.len()) {
        if marks[at] {
            return Some(at);
        }
    }
    None
}

impl Marks {
    ghost use Rattle.std.specs.Prelude.{◌≡◌, ℕ, ◌<◌, ◌≤◌, All, true, false, length, slice_set, slice_index, slice_index_or, IfOk, MatchOption, replicate};
    ghost use Rattle.dt_check.specs.Marks.{HasNone, IsFirst, AreMarked};

    /// Room for so many numbers, none of which is marked.
    pub(crate) fn new(alloc: Global, count: usize) -> Result<Marks, NoMemory>
        ensures { IfOk result (λ marks. marks.marks.items ≡ replicate count false) }
    {
        Ok(Marks {
            marks: vec![in alloc; false; count]?,
            blocks: vec![in alloc; false; count / BLOCK + 1]?,
        })
    }

    /// Marks a number.
    pub(crate) fn mark(&mut self, number: u32)
        requires { number < length self.old.marks.items }
        ensures { self.new.marks.items ≡ slice_set self.old.marks.items number true }
    {
        self.blocks[number as usize / BLOCK] = true;
        self.marks[number as usize] = true;
    }

    /// Marks each of these numbers.
    pub(crate) fn mark_all(&mut self, numbers: &[u32])
        requires { All (λ n. n < length self.old.marks.items) numbers.now }
        ensures { AreMarked numbers.now self.old.marks.items self.new.marks.items }
    {
        for number in numbers {
            self.mark(*number);
        }
    }

    /// Takes the mark from a number.
    pub(crate) fn unmark(&mut self, number: u32)
        requires { number < length self.old.marks.items }
        ensures { self.new.marks.items ≡ slice_set self.old.marks.items number false }
    {
        self.marks[number as usize] = false;
    }

    /// The first marked number from this one on.
    pub(crate) fn next(&self, from: usize) -> Option<usize>
        ensures { MatchOption result (HasNone self.now.marks.items from (length self.now.marks.items)) (IsFirst self.now.marks.items from) }
    {
        for block in from / BLOCK..self.blocks.len() {
            if self.blocks[block] {
                let start = block * BLOCK;
                match first_between(&self.marks, from.max(start), start + BLOCK) {
                    Some(at) => return Some(at),
                    None => {}
                }
            }
        }
        None
    }

    /// Sees that no block is looked at, where nothing is marked.
    pub(crate) fn clear(&mut self)
        requires { HasNone self.old.marks.items 0 (length self.old.marks.items) }
        ensures marks { self.new.marks.items ≡ self.old.marks.items }
        ensures blocks { (b : ℕ) → slice_index_or self.new.blocks.items b false ≡ false }
    {
        for block in 0..self.blocks.len() {
            self.blocks[block] = false;
        }
    }
}
