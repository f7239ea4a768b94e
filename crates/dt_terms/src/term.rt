ghost use Rattle.std.specs.Prelude.{◌≡◌};

use dt_bits::{Op, Width};

/// A term of a problem: something that has a value.
#[derive(Clone, Copy, Debug, PartialEq, Eq, Hash)]
pub enum Term {
    /// Its value is free to choose, of this width.
    Choice {
        width: Width,
    },
    /// The operator's value of the terms `a`, `b` and `c`, which stand earlier; an operand that the
    /// operator doesn't have is 0. The width is that of the result.
    Node {
        op: Op,
        a: u32,
        b: u32,
        c: u32,
        width: Width,
    },
}

const _: () = prove!(size_of::<Term>() <= 96);

impl Term {
    ghost use Rattle.std.specs.Prelude.{◌≡◌};
    ghost use Rattle.dt_terms.specs.Terms.{width_of_term, is_choice};

    /// The width of the term's value.
    pub fn width(self) -> Width
        ensures { result ≡ width_of_term self }
    {
        match self {
            Term::Choice { width } | Term::Node { width, .. } => width,
        }
    }

    /// Whether the term's value is free to choose.
    pub fn is_choice(self) -> bool
        ensures { result ≡ is_choice self }
    {
        matches!(self, Term::Choice { .. })
    }
}
