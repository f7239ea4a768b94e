use crate::propagation::target;
use dt_bits::arity;
use dt_terms::{Problem, Term};

/// A step of a problem, which narrows one cell.
#[derive(Clone, Copy, Debug, PartialEq, Eq)]
pub enum Step {
    /// From the operands of a node to the node, which is the term at this position.
    Forward { term: u32 },
    /// From the node at the position `parent`, and its other operands, to its operand at `place`: 0,
    /// 1 or 2, below the operator's number of operands.
    Backward { parent: u32, place: u32 },
}

impl Step {
    ghost use Rattle.std.specs.Prelude.{◌≡◌, ◌↔◌, IsTrue};
    ghost use Rattle.dt_box.specs.Steps.{IsStep, target};

    /// The term whose cell the step narrows.
    pub fn target(self, problem: &Problem) -> u32
        requires { IsStep problem.now.terms self }
        ensures { result ≡ target problem.now.terms self }
    {
        target(problem.terms.as_slice(), self)
    }

    /// Whether this is a step of the problem: its term or parent is a node, and its place is below
    /// the operator's number of operands.
    pub fn is_of(self, problem: &Problem) -> bool
        ensures { IsTrue result ↔ IsStep problem.now.terms self }
    {
        match self {
            Step::Forward { term } => match problem.terms.get(term as usize) {
                Some(Term::Node { .. }) => true,
                _ => false,
            },
            Step::Backward { parent, place } => match problem.terms.get(parent as usize) {
                Some(Term::Node { op, .. }) => place < arity(*op),
                _ => false,
            },
        }
    }
}

/// What became of a cell.
#[derive(Clone, Copy, Debug, PartialEq, Eq)]
pub enum Changed {
    /// The domain is the same, and not empty.
    No,
    /// The domain is another and not empty, and no further bit is known.
    Narrowed,
    /// The domain is another and not empty, and a bit is known that wasn't.
    BitKnown,
    /// The domain is empty, whatever it was.
    Empty,
}
