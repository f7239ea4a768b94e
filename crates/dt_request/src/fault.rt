ghost use Rattle.std.specs.Prelude.{◌≡◌};
ghost use Rattle.dt_request.specs.declared.fault.RequestFault.TheVariants as faults;
ghost use Rattle.dt_request.specs.Fault.{at_line};

use dt_bits::NoMemory;
use dt_lex::LexFault;
use std::alloc::AllocFailed;
use std::fmt;

/// Why a text is no request list: memory ran out, or the first bad line, counted from 1, with the
/// first thing in this order that is wrong with it.
#[derive(Clone, Copy, Debug, PartialEq, Eq)]
pub enum RequestFault {
    /// Memory ran out.
    Memory,
    /// The bytes of the line are at fault; it is never `LexFault::Memory`.
    Lex(LexFault),
    /// The line doesn't have the shape that is given for its place.
    Form(u32),
    /// A 17th kept range or context, a 65th access, a 65th demand of one access, or a 257th link.
    TooMany(u32),
    /// A name isn't declared as what its place asks for: a context, an access, a register, an input,
    /// a node, an if or a read, or a read.
    Unknown(u32),
    /// An earlier context, or an earlier access, has this name.
    Twice(u32),
    /// The table bounds or a kept range don't fit the model, a number doesn't fit its quantity, a
    /// code is above 65535, or a page exponent is above the address width.
    OutOfRange(u32),
}

/// What is wrong with a line whose bytes are lawful.
#[derive(Clone, Copy, Debug, PartialEq, Eq)]
pub enum Cause {
    Form,
    TooMany,
    Unknown,
    Twice,
    OutOfRange,
}

/// The fault of the line of this number.
pub fn at_line(number: u32, cause: Cause) -> RequestFault
    ensures { result ≡ at_line number cause }
{
    match cause {
        Cause::Form => RequestFault::Form(number),
        Cause::TooMany => RequestFault::TooMany(number),
        Cause::Unknown => RequestFault::Unknown(number),
        Cause::Twice => RequestFault::Twice(number),
        Cause::OutOfRange => RequestFault::OutOfRange(number),
    }
}

impl RequestFault {
    ghost use Rattle.std.specs.Prelude.{◌≡◌};
    ghost use Rattle.dt_request.specs.Fault.{line_of, word_of};

    /// The number of the bad line, from 1; None where memory ran out.
    pub fn line(self) -> Option<u32>
        ensures { result ≡ line_of self }
    {
        match self {
            RequestFault::Memory => None,
            RequestFault::Lex(fault) => fault.line(),
            RequestFault::Form(line)
            | RequestFault::TooMany(line)
            | RequestFault::Unknown(line)
            | RequestFault::Twice(line)
            | RequestFault::OutOfRange(line) => Some(line),
        }
    }

    /// The one word of the cause: `memory`, `long`, `byte`, `form`, `too-many`, `unknown`, `twice`
    /// or `out-of-range`.
    pub fn word(self) -> &'static str
        ensures { result.now ≡ word_of self }
    {
        match self {
            RequestFault::Memory => "memory",
            RequestFault::Lex(fault) => fault.word(),
            RequestFault::Form(_) => "form",
            RequestFault::TooMany(_) => "too-many",
            RequestFault::Unknown(_) => "unknown",
            RequestFault::Twice(_) => "twice",
            RequestFault::OutOfRange(_) => "out-of-range",
        }
    }
}

impl fmt::Display for RequestFault {
    fn fmt<W: fmt::Write>(&self, f: &mut fmt::Formatter<W>) -> fmt::Result {
        match self {
            RequestFault::Memory => f.write_str("memory ran out"),
            RequestFault::Lex(fault) => write!(f, "{fault}"),
            RequestFault::Form(line) => write!(f, "line {line} is no line of a list here"),
            RequestFault::TooMany(line) => { write!(f, "line {line} has one of its kind too many") }
            RequestFault::Unknown(line) => {
                write!(
                    f,
                    "line {line} has a name that isn't declared as it is used"
                )
            }
            RequestFault::Twice(line) => write!(f, "line {line} has a name that is taken"),
            RequestFault::OutOfRange(line) => {
                write!(f, "line {line} has a number out of its range")
            }
        }
    }
}

impl From<NoMemory> for RequestFault {
    ghost from_gives = { λ _ e. e ≡ faults.Memory };

    fn from(_: NoMemory) -> RequestFault {
        RequestFault::Memory
    }
}

impl<T: Drop> From<AllocFailed<T>> for RequestFault {
    ghost from_gives = { λ _ e. e ≡ faults.Memory };

    fn from(_: AllocFailed<T>) -> RequestFault {
        RequestFault::Memory
    }
}
