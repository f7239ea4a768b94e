ghost use Rattle.std.specs.Prelude.{◌≡◌};
ghost use Rattle.dt_log.specs.declared.fault.LogFault.TheVariants as faults;

use dt_bits::NoMemory;
use dt_lex::LexFault;
use std::fmt;

/// Why a text is no log: the first bad line, from 1, and the first of its causes; or, where no line
/// is bad, the first item, from 1, where no tree can go on.
#[derive(Clone, Copy, Debug, PartialEq, Eq)]
pub enum LogFault {
    /// Memory ran out.
    Memory,
    /// The line is too long or has a byte that no text may have. It never holds `Memory`.
    Lex(LexFault),
    /// The line isn't spelled as its kind is, or may not stand here. A text that ends before its
    /// line `end` has this fault at the number of its lines + 1.
    Form(u32),
    /// No tree can go on at this item. Where the tree isn't ended it is the number of items + 1.
    NotATree(u32),
}

impl LogFault {
    ghost use Rattle.std.specs.Prelude.{◌≡◌};
    ghost use Rattle.dt_log.specs.Fault.{line_of, item_of, word_of};

    /// The number of the bad line, from 1; None where no line is bad, or memory ran out.
    pub fn line(self) -> Option<u32>
        ensures { result ≡ line_of self }
    {
        match self {
            LogFault::Lex(fault) => fault.line(),
            LogFault::Form(line) => Some(line),
            LogFault::Memory | LogFault::NotATree(_) => None,
        }
    }

    /// The number of the item, from 1, where no tree can go on; None for every other fault.
    pub fn item(self) -> Option<u32>
        ensures { result ≡ item_of self }
    {
        match self {
            LogFault::NotATree(item) => Some(item),
            LogFault::Memory | LogFault::Lex(_) | LogFault::Form(_) => None,
        }
    }

    /// The one word of the cause: `memory`, `long`, `byte`, `form` or `tree`.
    pub fn word(self) -> &'static str
        ensures { result.now ≡ word_of self }
    {
        match self {
            LogFault::Memory => "memory",
            LogFault::Lex(fault) => fault.word(),
            LogFault::Form(_) => "form",
            LogFault::NotATree(_) => "tree",
        }
    }
}

impl fmt::Display for LogFault {
    fn fmt<W: fmt::Write>(&self, f: &mut fmt::Formatter<W>) -> fmt::Result {
        match self {
            LogFault::Memory => f.write_str("memory ran out"),
            LogFault::Lex(fault) => write!(f, "{fault}"),
            LogFault::Form(line) => write!(f, "line {line} is no line of a log here"),
            LogFault::NotATree(item) => write!(f, "no tree can go on at item {item}"),
        }
    }
}

impl From<NoMemory> for LogFault {
    ghost from_gives = { λ _ e. e ≡ faults.Memory };

    fn from(_: NoMemory) -> LogFault {
        LogFault::Memory
    }
}
