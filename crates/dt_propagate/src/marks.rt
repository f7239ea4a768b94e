ghost use Rattle.std.specs.Prelude.{◌≡◌, ◌<◌, ◌≤◌, ◌+◌, ◌*◌, ◌%◌, ℕ, true, false, All, length, slice_index, IfOk};
ghost use Rattle.dt_bits.specs.Bits.{bit};
ghost use Rattle.dt_terms.specs.Problem.{most_terms};
ghost use Rattle.dt_box.specs.Watching.{watches_of};
ghost use Rattle.dt_propagate.specs.Marks.{is_marked, Grows, AreMarkedAt, AreMarkedNear, HasRoom};

use crate::bits::Bits;
use dt_bits::NoMemory;
use dt_box::Watches;
use dt_terms::Problem;
use std::alloc::Global;

// The steps that are to be tried, and how often a cell may be narrowed without a further bit.
//
// The step from the operands of the term t stands at position t; the steps to the operands of the
// term t stand at position 2n - 1 - t, where n is the number of terms. So a scan that rises goes
// over the nodes as they depend on one another, and then back.
#[derive(Drop)]
pub(crate) struct Marks {
    pub(crate) bits: Bits,
    pub(crate) narrowings: u64,
}

// How many positions there are for the steps of this many terms.
pub(crate) fn positions(count: usize) -> u32
    requires { count ≤ most_terms }
    ensures { result ≡ 2 * count }
{
    2 * count as u32
}

impl Marks {
    // No marks, for this many terms.
    pub(crate) fn new(
        alloc: Global,
        count: usize,
        word: u64,
        narrowings: u64,
    ) -> Result<Marks, NoMemory>
        requires { count ≤ most_terms }
        ensures room { IfOk result (λ marks. HasRoom (2 * count) marks.bits.words.items) }
        ensures words { IfOk result (λ marks. (i : ℕ) → i < 2 * count → is_marked marks.bits.words.items i ≡ bit word (i % 64)) }
    {
        Ok(Marks {
            bits: Bits::new(alloc, positions(count) as usize, word)?,
            narrowings,
        })
    }

    // Marks the steps from a node's operands and to them.
    fn mark_node(&mut self, count: usize, node: u32)
        requires count { count ≤ most_terms }
        requires node { node < count }
        requires room { HasRoom (2 * count) self.old.bits.words.items }
        ensures room { HasRoom (2 * count) self.new.bits.words.items }
        ensures node { AreMarkedAt count self.new.bits.words.items node }
        ensures grows { Grows self.old.bits.words.items self.new.bits.words.items }
        ensures narrowings { self.new.narrowings ≡ self.old.narrowings }
    {
        self.bits.mark(node);
        self.bits.mark(positions(count) - 1 - node);
    }

    // Marks each step that looks at the cell of a term, or narrows it.
    pub(crate) fn mark_near(&mut self, problem: &Problem, watches: &Watches, term: u32)
        requires watches { watches.now ≡ watches_of problem.now.terms }
        requires term { term < length problem.now.terms }
        requires room { HasRoom (2 * length problem.now.terms) self.old.bits.words.items }
        ensures room { HasRoom (2 * length problem.now.terms) self.new.bits.words.items }
        ensures near { AreMarkedNear problem.now.terms self.new.bits.words.items term }
        ensures grows { Grows self.old.bits.words.items self.new.bits.words.items }
        ensures narrowings { self.new.narrowings ≡ self.old.narrowings }
    {
        let count = problem.terms.len();
        self.mark_node(count, term);
        for user in watches.users(term) {
            self.mark_node(count, *user);
        }
    }
}
