ghost use Rattle.std.specs.Prelude.{◌≡◌};
ghost use Rattle.dt_make.specs.declared.fault.MakeFault.TheVariants as faults;

use dt_bits::NoMemory;
use std::error::Error;
use std::fmt;
use std::fmt::Display;

/// Why there is no generated list.
#[derive(Clone, Copy, Debug, PartialEq, Eq)]
pub enum MakeFault {
    /// Memory ran out.
    Memory,
    /// A list has 1 to 64 accesses.
    OutOfRange,
}

impl Display for MakeFault {
    fn fmt<W: fmt::Write>(&self, f: &mut fmt::Formatter<W>) -> fmt::Result {
        f.write_str(match self {
            MakeFault::Memory => "memory ran out",
            MakeFault::OutOfRange => "a list has 1 to 64 accesses",
        })
    }
}

impl Error for MakeFault {}

impl From<NoMemory> for MakeFault {
    ghost from_gives = { λ _ e. e ≡ faults.Memory };

    fn from(_: NoMemory) -> MakeFault {
        MakeFault::Memory
    }
}
