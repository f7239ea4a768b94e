// What is printed, with its status.
ghost use Rattle.std.specs.Prelude.{◌≡◌, IfOk};
ghost use Rattle.dt_top.specs.Files.{file_word};
ghost use Rattle.dt_top.specs.Lines.{bad_line, tree_line, quantity_word, too_large_line};
ghost use Rattle.dt_top.specs.Replies.{bytes_of, IsWant, IsReplyOrWant, IsRefusedLine};

use crate::file::File;
use crate::status::Status;
use dt_bits::NoMemory;
use dt_encode::Quantity3;
use dt_lex::{Piece, push_decimal, push_row};
use std::alloc::Global;

/// A text to print.
#[derive(Debug, Drop)]
pub enum Text {
    /// One that is always the same, and takes no memory.
    Line(&'static str),
    /// One that was made.
    Made(Vec<u8>),
}

impl Text {
    /// Its bytes.
    pub fn as_bytes(&self) -> &[u8]
        ensures { result.now ≡ bytes_of self.now }
    {
        match self {
            Text::Line(text) => text.as_bytes(),
            Text::Made(text) => text.as_slice(),
        }
    }
}

/// What a command says: a status, and the text that is printed with it. It is an answer, or the
/// refusal of what it was given, or, with no text, that memory ran out.
#[derive(Debug, Drop)]
pub struct Reply {
    pub status: Status,
    pub text: Text,
}

impl Reply {
    /// A line that is always the same.
    pub fn line(status: Status, text: &'static str) -> Reply
        ensures status { result.status ≡ status }
        ensures text { bytes_of result.text ≡ text.now }
    {
        Reply {
            status,
            text: Text::Line(text),
        }
    }

    /// A text that was made.
    pub fn made(status: Status, text: Vec<u8>) -> Reply
        ensures status { result.status ≡ status }
        ensures text { bytes_of result.text ≡ text.items }
    {
        Reply {
            status,
            text: Text::Made(text),
        }
    }

    /// Memory ran out.
    pub fn no_memory() -> Reply
        ensures { IsWant result }
    {
        Reply::line(Status::Memory, "")
    }

    /// The refusal of a file's text, by its first bad line and the word of the cause; without a line
    /// memory ran out.
    pub fn refused(alloc: Global, file: File, line: Option<u32>, cause: &str) -> Reply
        ensures { IsRefusedLine file line cause.now result }
    {
        let Some(line) = line else {
            return Reply::no_memory();
        };
        match bad_line(alloc, file, line, cause) {
            Ok(text) => Reply::made(file.refused_status(), text),
            Err(_) => Reply::no_memory(),
        }
    }

    /// The refusal of a log's text, by the first item where no tree can go on.
    pub fn no_tree(alloc: Global, item: u32) -> Reply
        ensures { IsReplyOrWant Status.InputRefused (tree_line item) result }
    {
        match tree_line(alloc, item) {
            Ok(text) => Reply::made(Status::InputRefused, text),
            Err(_) => Reply::no_memory(),
        }
    }

    /// The refusal of a list, by the first product that is above its limit.
    pub fn too_large(alloc: Global, what: Quantity3, number: u64) -> Reply
        ensures { IsReplyOrWant Status.TooLarge (too_large_line what number) result }
    {
        match too_large_line(alloc, what, number) {
            Ok(text) => Reply::made(Status::TooLarge, text),
            Err(_) => Reply::no_memory(),
        }
    }
}

// The line that names a file's first bad line.
fn bad_line(alloc: Global, file: File, line: u32, cause: &str) -> Result<Vec<u8>, NoMemory>
    ensures { IfOk result (λ text. text.items ≡ bad_line (file_word file) line cause.now) }
{
    let mut out = Vec::from_slice(alloc, b"refused ")?;
    out.extend_from_slice(file.word().as_bytes())?;
    out.extend_from_slice(b" line ")?;
    push_decimal(&mut out, u128::from(line))?;
    out.push(b' ')?;
    out.extend_from_slice(cause.as_bytes())?;
    out.push(b'\n')?;
    Ok(out)
}

// The line that names the first item where no tree can go on.
fn tree_line(alloc: Global, item: u32) -> Result<Vec<u8>, NoMemory>
    ensures { IfOk result (λ text. text.items ≡ tree_line item) }
{
    let mut out = Vec::new(alloc);
    push_row(
        &mut out,
        b"refused",
        &[
            Piece::Word(b"log"),
            Piece::Word(b"item"),
            Piece::Decimal(u128::from(item)),
            Piece::Word(b"tree"),
        ],
    )?;
    Ok(out)
}

// The word for a product in a printed line.
fn quantity_word(what: Quantity3) -> &'static str
    ensures { result.now ≡ quantity_word what }
{
    match what {
        Quantity3::Reads => "reads",
        Quantity3::Dones => "dones",
        Quantity3::Terms => "terms",
    }
}

// The line that names the first product above its limit.
fn too_large_line(alloc: Global, what: Quantity3, number: u64) -> Result<Vec<u8>, NoMemory>
    ensures { IfOk result (λ text. text.items ≡ too_large_line what number) }
{
    let mut out = Vec::new(alloc);
    let word = quantity_word(what).as_bytes();
    push_row(
        &mut out,
        b"too",
        &[
            Piece::Word(b"large"),
            Piece::Word(word),
            Piece::Decimal(u128::from(number)),
        ],
    )?;
    Ok(out)
}
