use dt_bits::NoMemory;
use dt_image::ImageFault;
use std::io;

/// Why the program ended early.
#[derive(Debug, Drop)]
pub enum Stop {
    /// Memory ran out.
    Memory,
    /// The text is no image of the model.
    Refused(ImageFault),
    /// A text of 2^32 - 1 bytes or more, for which no reader is made.
    Long,
    /// The words are not a file's name and a number of rounds.
    Words,
    /// The clock, the words, a file or an output failed.
    Outside(io::Error),
}

impl From<NoMemory> for Stop {
    fn from(_: NoMemory) -> Stop {
        Stop::Memory
    }
}

impl From<ImageFault> for Stop {
    fn from(fault: ImageFault) -> Stop {
        Stop::Refused(fault)
    }
}

impl From<io::Error> for Stop {
    fn from(error: io::Error) -> Stop {
        Stop::Outside(error)
    }
}
