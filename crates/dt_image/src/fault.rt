ghost use Rattle.std.specs.Prelude.{◌≡◌};
ghost use Rattle.dt_image.specs.declared.fault.ImageFault.TheVariants as faults;
ghost use Rattle.dt_image.specs.Fault.{at_line};

use dt_bits::NoMemory;
use dt_lex::LexFault;
use std::fmt;

/// Why a text is no image of a model: the first bad line, from 1, and the first of its causes in
/// this order.
#[derive(Clone, Copy, Debug, PartialEq, Eq)]
pub enum ImageFault {
    /// Memory ran out.
    Memory,
    /// The line is too long or has a byte that no text may have. It never holds `Memory`.
    Lex(LexFault),
    /// The line isn't spelled as its kind is, or may not stand here. A text that ends before its
    /// line `end` has this fault at the number of its lines + 1.
    Form(u32),
    /// Another number of values than the model has registers or inputs, or no position of a context.
    Shape(u32),
    /// A number that doesn't fit its width, or an address outside its range.
    OutOfRange(u32),
    /// An address that isn't above that of the word before.
    Order(u32),
}

/// What is wrong with a line, apart from its bytes.
#[derive(Clone, Copy, Debug, PartialEq, Eq)]
pub enum Cause {
    Form,
    Shape,
    OutOfRange,
    Order,
}

/// The fault of the line of this number.
pub fn at_line(number: u32, cause: Cause) -> ImageFault
    ensures { result ≡ at_line number cause }
{
    match cause {
        Cause::Form => ImageFault::Form(number),
        Cause::Shape => ImageFault::Shape(number),
        Cause::OutOfRange => ImageFault::OutOfRange(number),
        Cause::Order => ImageFault::Order(number),
    }
}

impl ImageFault {
    ghost use Rattle.std.specs.Prelude.{◌≡◌};
    ghost use Rattle.dt_image.specs.Fault.{line_of, word_of};

    /// The number of the bad line, from 1; None where memory ran out.
    pub fn line(self) -> Option<u32>
        ensures { result ≡ line_of self }
    {
        match self {
            ImageFault::Memory => None,
            ImageFault::Lex(fault) => fault.line(),
            ImageFault::Form(line)
            | ImageFault::Shape(line)
            | ImageFault::OutOfRange(line)
            | ImageFault::Order(line) => Some(line),
        }
    }

    /// The one word of the cause: `memory`, `long`, `byte`, `form`, `shape`, `out-of-range` or
    /// `order`.
    pub fn word(self) -> &'static str
        ensures { result.now ≡ word_of self }
    {
        match self {
            ImageFault::Memory => "memory",
            ImageFault::Lex(fault) => fault.word(),
            ImageFault::Form(_) => "form",
            ImageFault::Shape(_) => "shape",
            ImageFault::OutOfRange(_) => "out-of-range",
            ImageFault::Order(_) => "order",
        }
    }
}

impl fmt::Display for ImageFault {
    fn fmt<W: fmt::Write>(&self, f: &mut fmt::Formatter<W>) -> fmt::Result {
        match self {
            ImageFault::Memory => f.write_str("memory ran out"),
            ImageFault::Lex(fault) => write!(f, "{fault}"),
            ImageFault::Form(line) => write!(f, "line {line} is no line of an image here"),
            ImageFault::Shape(line) => {
                write!(f, "line {line} has another shape than the model's values")
            }
            ImageFault::OutOfRange(line) => write!(f, "line {line} has a number out of its range"),
            ImageFault::Order(line) => {
                write!(
                    f,
                    "line {line} has an address that isn't above the one before"
                )
            }
        }
    }
}

impl From<NoMemory> for ImageFault {
    ghost from_gives = { λ _ e. e ≡ faults.Memory };

    fn from(_: NoMemory) -> ImageFault {
        ImageFault::Memory
    }
}
