use dt_bits::NoMemory;
use dt_encode::EncodeFault;
use dt_modeltext::ModelFault;
use dt_request::RequestFault;
use std::alloc::AllocError;
use std::io;

/// Why the program ended early.
#[derive(Debug, Drop)]
pub enum Stop {
    /// Memory ran out.
    Memory,
    /// The text is no model.
    Model(ModelFault),
    /// The text is no list.
    List(RequestFault),
    /// The list is too large.
    TooLarge(EncodeFault),
    /// A text of 2^32 - 1 bytes or more, for which no reader is made.
    Long,
    /// The clock, the words, a file or an output failed.
    Outside(io::Error),
}

impl From<NoMemory> for Stop {
    fn from(_: NoMemory) -> Stop {
        Stop::Memory
    }
}

impl From<AllocError> for Stop {
    fn from(_: AllocError) -> Stop {
        Stop::Memory
    }
}

impl From<ModelFault> for Stop {
    fn from(fault: ModelFault) -> Stop {
        Stop::Model(fault)
    }
}

impl From<RequestFault> for Stop {
    fn from(fault: RequestFault) -> Stop {
        Stop::List(fault)
    }
}

impl From<EncodeFault> for Stop {
    fn from(fault: EncodeFault) -> Stop {
        Stop::TooLarge(fault)
    }
}

impl From<io::Error> for Stop {
    fn from(error: io::Error) -> Stop {
        Stop::Outside(error)
    }
}
