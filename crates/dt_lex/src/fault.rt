ghost use Rattle.std.specs.Prelude.{◌≡◌};
ghost use Rattle.dt_lex.specs.declared.fault.LexFault.TheVariants as faults;

use std::alloc::AllocError;
use std::fmt;

/// Why a text could not be cut into tokens. The numbers are those of lines, from 1.
#[derive(Clone, Copy, Debug, PartialEq, Eq)]
pub enum LexFault {
    /// Memory ran out.
    Memory,
    /// A line of more than 16,384 bytes.
    LineTooLong(u32),
    /// A byte before the comment of a line that is neither printable ASCII nor a blank.
    BadByte(u32),
}

impl LexFault {
    ghost use Rattle.std.specs.Prelude.{◌≡◌};
    ghost use Rattle.dt_lex.specs.Fault.{line_of, word_of};

    /// The number of the bad line, from 1; None where memory ran out.
    pub fn line(self) -> Option<u32>
        ensures { result ≡ line_of self }
    {
        match self {
            LexFault::Memory => None,
            LexFault::LineTooLong(line) | LexFault::BadByte(line) => Some(line),
        }
    }

    /// The one word of the cause: `memory`, `long` or `byte`.
    pub fn word(self) -> &'static str
        ensures { result.now ≡ word_of self }
    {
        match self {
            LexFault::Memory => "memory",
            LexFault::LineTooLong(_) => "long",
            LexFault::BadByte(_) => "byte",
        }
    }
}

impl fmt::Display for LexFault {
    fn fmt<W: fmt::Write>(&self, f: &mut fmt::Formatter<W>) -> fmt::Result {
        match self {
            LexFault::Memory => f.write_str("memory ran out"),
            LexFault::LineTooLong(line) => write!(f, "line {line} has more than 16,384 bytes"),
            LexFault::BadByte(line) => write!(f, "line {line} has a byte that no text may have"),
        }
    }
}

impl From<AllocError> for LexFault {
    ghost from_gives = { λ _ e. e ≡ faults.Memory };

    fn from(_e: AllocError) -> LexFault {
        LexFault::Memory
    }
}
