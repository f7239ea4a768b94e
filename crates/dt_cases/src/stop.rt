//! Why a call gave nothing: that memory ran out, the fault of a reader, by its line and its word, or
//! a list that is too large.
use dt_bits::NoMemory;
use dt_encode::{EncodeFault, Quantity3};
use dt_image::ImageFault;
use dt_lex::LexFault;
use dt_modeltext::ModelFault;
use dt_request::RequestFault;
use std::alloc::{AllocError, AllocFailed};

/// Why a call gave nothing.
#[derive(Clone, Copy)]
pub enum Stop {
    /// Memory ran out.
    Memory,
    /// There is no such call.
    Unknown,
    /// A text is refused, by its line and this word.
    Refused {
        text: &'static str,
        line: u32,
        cause: &'static str,
    },
    /// The list is too large: this product is above its limit.
    TooLarge {
        what: Quantity3,
        number: u64,
    },
}

/// The fault of a text; one without a line is that memory ran out.
fn refused(text: &'static str, line: Option<u32>, cause: &'static str) -> Stop {
    match line {
        None => Stop::Memory,
        Some(line) => Stop::Refused { text, line, cause },
    }
}

impl From<NoMemory> for Stop {
    fn from(_: NoMemory) -> Stop {
        Stop::Memory
    }
}

impl From<AllocError> for Stop {
    fn from(_: AllocError) -> Stop {
        Stop::Memory
    }
}

impl<T: Drop> From<AllocFailed<T>> for Stop {
    fn from(_: AllocFailed<T>) -> Stop {
        Stop::Memory
    }
}

impl From<LexFault> for Stop {
    fn from(fault: LexFault) -> Stop {
        refused("source", fault.line(), fault.word())
    }
}

impl From<ModelFault> for Stop {
    fn from(fault: ModelFault) -> Stop {
        refused("model", fault.line(), fault.word())
    }
}

impl From<RequestFault> for Stop {
    fn from(fault: RequestFault) -> Stop {
        refused("requests", fault.line(), fault.word())
    }
}

impl From<ImageFault> for Stop {
    fn from(fault: ImageFault) -> Stop {
        refused("image", fault.line(), fault.word())
    }
}

impl From<EncodeFault> for Stop {
    fn from(fault: EncodeFault) -> Stop {
        match fault {
            EncodeFault::Memory => Stop::Memory,
            EncodeFault::TooLarge { what, number } => Stop::TooLarge { what, number },
        }
    }
}
