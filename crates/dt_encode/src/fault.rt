ghost use Rattle.std.specs.Prelude.{◌≡◌};
ghost use Rattle.dt_encode.specs.declared.fault.EncodeFault.TheVariants as faults;

use dt_bits::NoMemory;
use std::error::Error;
use std::fmt;
use std::fmt::Display;

/// A product that bounds the size of a list's problem.
#[derive(Clone, Copy, Debug, PartialEq, Eq)]
pub enum Quantity3 {
    /// Accesses times read nodes: at most 256.
    Reads,
    /// Accesses times nodes that end with a result: at most 512.
    Dones,
    /// Accesses times nodes and operators of the model: at most 200,000.
    Terms,
}

/// Why a list has no problem.
#[derive(Clone, Copy, Debug, PartialEq, Eq)]
pub enum EncodeFault {
    /// Memory ran out.
    Memory,
    /// The product is above its limit: the first of reads, dones and terms that is.
    TooLarge { what: Quantity3, number: u64 },
}

impl Display for Quantity3 {
    fn fmt<W: fmt::Write>(&self, f: &mut fmt::Formatter<W>) -> fmt::Result {
        f.write_str(match self {
            Quantity3::Reads => "reads",
            Quantity3::Dones => "dones",
            Quantity3::Terms => "terms",
        })
    }
}

impl Display for EncodeFault {
    fn fmt<W: fmt::Write>(&self, f: &mut fmt::Formatter<W>) -> fmt::Result {
        match self {
            EncodeFault::Memory => f.write_str("memory ran out"),
            EncodeFault::TooLarge { what, number } => {
                write!(f, "the list is too large: {number} {what}")
            }
        }
    }
}

impl Error for EncodeFault {}

impl From<NoMemory> for EncodeFault {
    ghost from_gives = { λ _ e. e ≡ faults.Memory };

    fn from(_: NoMemory) -> EncodeFault {
        EncodeFault::Memory
    }
}
