use dt_bits::NoMemory;
use dt_log::LogFault;
use std::io;

/// Why the program ended early.
#[derive(Debug, Drop)]
pub enum Stop {
    /// Memory ran out.
    Memory,
    /// The text is no log.
    Refused(LogFault),
    /// A text of 2^32 - 1 bytes or more, for which no reader is made.
    Long,
    /// The items that were made are no tree.
    NoTree,
    /// The clock, the words, a file or an output failed.
    Outside(io::Error),
}

impl From<NoMemory> for Stop {
    fn from(_: NoMemory) -> Stop {
        Stop::Memory
    }
}

impl From<LogFault> for Stop {
    fn from(fault: LogFault) -> Stop {
        Stop::Refused(fault)
    }
}

impl From<io::Error> for Stop {
    fn from(error: io::Error) -> Stop {
        Stop::Outside(error)
    }
}
