ghost use Rattle.std.specs.Prelude.{◌≡◌};
ghost use Rattle.dt_modeltext.specs.declared.fault.ModelFault.TheVariants as faults;

use dt_lex::LexFault;
use dt_model::ModelRefusal;
use std::alloc::{AllocError, AllocFailed};
use std::fmt;

/// Why a text gave no accepted model. The numbers of lines are counted from 1.
#[derive(Clone, Copy, Debug, PartialEq, Eq)]
pub enum ModelFault {
    /// Memory ran out.
    Memory,
    /// The first bad line is too long, or has a bad byte before its comment.
    Lex(LexFault),
    /// The first bad line doesn't have the shape that its place asks for, or no line `end` comes.
    Form(u32),
    /// No line is bad, and the check refuses the model at the place of this line; or this is the
    /// first bad line, and more than 32 opening parentheses stand unclosed in it (`TooDeep`).
    Refused { refusal: ModelRefusal, line: u32 },
}

impl ModelFault {
    ghost use Rattle.std.specs.Prelude.{◌≡◌};
    ghost use Rattle.dt_modeltext.specs.Fault.{line_of, word_of};

    /// The number of the line that the fault names, from 1; None where memory ran out.
    pub fn line(self) -> Option<u32>
        ensures { result ≡ line_of self }
    {
        match self {
            ModelFault::Memory => None,
            ModelFault::Lex(fault) => fault.line(),
            ModelFault::Form(line) | ModelFault::Refused { line, .. } => Some(line),
        }
    }

    /// The one word of the cause: `memory`, `long`, `byte`, `form`, or the word of the refusal.
    pub fn word(self) -> &'static str
        ensures { result.now ≡ word_of self }
    {
        match self {
            ModelFault::Memory => "memory",
            ModelFault::Lex(fault) => fault.word(),
            ModelFault::Form(_) => "form",
            ModelFault::Refused { refusal, .. } => refusal.word(),
        }
    }
}

impl fmt::Display for ModelFault {
    fn fmt<W: fmt::Write>(&self, f: &mut fmt::Formatter<W>) -> fmt::Result {
        match self {
            ModelFault::Memory => f.write_str("memory ran out"),
            ModelFault::Lex(fault) => write!(f, "{fault}"),
            ModelFault::Form(line) => write!(f, "line {line} isn't spelled as its place asks"),
            ModelFault::Refused { refusal, line } => {
                write!(f, "the model is refused at line {line}: {refusal}")
            }
        }
    }
}

impl From<AllocError> for ModelFault {
    ghost from_gives = { λ _ e. e ≡ faults.Memory };

    fn from(_e: AllocError) -> ModelFault {
        ModelFault::Memory
    }
}

impl<T: Drop> From<AllocFailed<T>> for ModelFault {
    ghost from_gives = { λ _ e. e ≡ faults.Memory };

    fn from(_e: AllocFailed<T>) -> ModelFault {
        ModelFault::Memory
    }
}
