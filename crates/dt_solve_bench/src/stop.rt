use dt_bits::NoMemory;
use dt_terms::TermFault;
use std::alloc::AllocError;
use std::io;

/// Why the program ended early.
#[derive(Debug, Drop)]
pub enum Stop {
    /// Memory ran out.
    Memory,
    /// A term was refused.
    Refused(TermFault),
    /// The numbers that were drawn aren't those of the choices.
    NoAssignment,
    /// The clock, the words or an output failed.
    Outside(io::Error),
}

impl From<NoMemory> for Stop {
    fn from(_: NoMemory) -> Stop {
        Stop::Memory
    }
}

impl From<AllocError> for Stop {
    fn from(_: AllocError) -> Stop {
        Stop::Memory
    }
}

impl From<TermFault> for Stop {
    fn from(fault: TermFault) -> Stop {
        Stop::Refused(fault)
    }
}

impl From<io::Error> for Stop {
    fn from(error: io::Error) -> Stop {
        Stop::Outside(error)
    }
}
