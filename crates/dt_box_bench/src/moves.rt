ghost use Rattle.std.specs.Prelude.{◌≡◌, All};
ghost use Rattle.dt_pair.specs.Ops.{pair_ops};
ghost use Rattle.dt_box.specs.Cells.{AreCells};
ghost use Rattle.dt_box_bench.specs.Moves.{IsMove};

use dt_box::{Cells, Changed, Step};
use dt_pair::Pair;
use dt_terms::Problem;

/// What is done to cells.
#[derive(Clone, Copy, Debug)]
pub enum Move {
    /// A step is taken.
    Take(Step),
    /// A bit of a term is set.
    Set { term: u32, bit: u32, value: bool },
}

impl Move {
    ghost use Rattle.std.specs.Prelude.{◌↔◌, IsTrue};
    ghost use Rattle.dt_box_bench.specs.Moves.{IsMove};

    /// Whether this can be done to the cells of the problem.
    pub fn is_of(self, problem: &Problem) -> bool
        ensures { IsTrue result ↔ IsMove problem.now.terms self }
    {
        match self {
            Move::Take(step) => step.is_of(problem),
            Move::Set { term, bit, .. } => match problem.terms.get(term as usize) {
                Some(term) => bit < term.width().0,
                None => false,
            },
        }
    }
}

/// How many moves changed a cell in which way.
#[derive(Clone, Copy, Debug)]
pub struct Counts {
    pub no: u64,
    pub narrowed: u64,
    pub bit_known: u64,
    pub empty: u64,
}

impl Counts {
    /// No moves yet.
    pub fn none() -> Counts {
        Counts {
            no: 0,
            narrowed: 0,
            bit_known: 0,
            empty: 0,
        }
    }

    /// Counts one more.
    fn add(&mut self, changed: Changed) {
        match changed {
            Changed::No => self.no = self.no.saturating_add(1),
            Changed::Narrowed => self.narrowed = self.narrowed.saturating_add(1),
            Changed::BitKnown => self.bit_known = self.bit_known.saturating_add(1),
            Changed::Empty => self.empty = self.empty.saturating_add(1),
        }
    }
}

/// Does a move, and says what became of the cell.
#[inline(always)]
fn make(problem: &Problem, cells: &mut Cells<Pair>, made: Move) -> Changed
    requires made { IsMove problem.now.terms made }
    requires cells { AreCells pair_ops problem.now.terms cells.old }
    ensures { AreCells pair_ops problem.now.terms cells.new }
{
    match made {
        Move::Take(step) => cells.apply(problem, step),
        Move::Set { term, bit, value } => cells.set_bit(problem, term, bit, value),
    }
}

/// Does these moves, in order.
pub fn replay(problem: &Problem, moves: &[Move], cells: &mut Cells<Pair>, counts: &mut Counts)
    requires moves { All (IsMove problem.now.terms) moves.now }
    requires cells { AreCells pair_ops problem.now.terms cells.old }
    ensures { AreCells pair_ops problem.now.terms cells.new }
{
    for made in moves {
        counts.add(make(problem, cells, *made));
    }
}

/// A multiplier whose powers mix the bits well.
const MULTIPLIER: u64 = 0x9e37_79b9_7f4a_7c15;

/// The lower half of a word.
const LOW: u128 = u64::MAX as u128;

/// The digest with a word more.
fn mixed(digest: u64, word: u128) -> u64 {
    let low = digest
        .wrapping_mul(MULTIPLIER)
        .wrapping_add((word & LOW) as u64);
    low.wrapping_mul(MULTIPLIER)
        .wrapping_add((word >> 64) as u64)
}

/// A number that tells lists of cells apart but for one in 2^64.
pub fn digest(problem: &Problem, cells: &Cells<Pair>) -> u64
    requires { AreCells pair_ops problem.now.terms cells.now }
{
    let mut digest = 0;
    for term in 0..problem.terms.len() as u32 {
        let cell = cells.get(term);
        digest = mixed(digest, cell.known.mask);
        digest = mixed(digest, cell.known.value);
        digest = mixed(digest, cell.range.lo);
        digest = mixed(digest, cell.range.hi);
    }
    digest
}
