ghost use Rattle.std.specs.Prelude.{◌≡◌};
ghost use Rattle.dt_terms.specs.declared.fault.TermFault.TheVariants as faults;

use dt_bits::NoMemory;
use std::alloc::AllocError;
use std::error::Error;
use std::fmt;
use std::fmt::Display;

/// Why nothing was added to a problem.
#[derive(Clone, Copy, Debug, PartialEq, Eq)]
pub enum TermFault {
    /// Memory ran out.
    Memory,
    /// The problem has as many terms as one may have.
    Full,
    /// An operand that is used, or the term to be required, isn't a term of the problem.
    Operand,
    /// The operator doesn't fit the widths of its operands, or the term to be required hasn't one
    /// bit.
    Width,
}

impl Display for TermFault {
    fn fmt<W: fmt::Write>(&self, f: &mut fmt::Formatter<W>) -> fmt::Result {
        f.write_str(match self {
            TermFault::Memory => "memory ran out",
            TermFault::Full => "there are 4,000,000 terms, which is the most",
            TermFault::Operand => "a named term isn't there",
            TermFault::Width => "a named term has another width than is asked",
        })
    }
}

impl Error for TermFault {}

impl From<NoMemory> for TermFault {
    ghost from_gives = { λ _ e. e ≡ faults.Memory };

    fn from(_: NoMemory) -> TermFault {
        TermFault::Memory
    }
}

impl From<AllocError> for TermFault {
    ghost from_gives = { λ _ e. e ≡ faults.Memory };

    fn from(_: AllocError) -> TermFault {
        TermFault::Memory
    }
}
