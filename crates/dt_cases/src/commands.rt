//! The program over files in memory.
use crate::output::push_bytes;
use crate::stop::Stop;
use dt_edge::{MemoryShelf, MemorySink};
use dt_script::Case;
use dt_top::run;
use std::alloc::{AllocError, Global};

/// How many bytes the output takes.
const ROOM: u64 = 1_048_576;

/// The words of a text, each a text of its own.
fn words(alloc: Global, text: &str) -> Result<Vec<String>, AllocError> {
    let mut words = Vec::new(alloc);
    for word in text.split_whitespace() {
        words.push(String::from_str(alloc, word)?)?;
    }
    Ok(words)
}

/// The positions that a text has.
fn positions(alloc: Global, text: &str) -> Result<Vec<u32>, AllocError> {
    let mut positions = Vec::new(alloc);
    for word in text.split_whitespace() {
        if let Ok(position) = word.parse::<u32>() {
            positions.push(position)?;
        }
    }
    Ok(positions)
}

/// A shelf with the files of the case.
fn shelf(alloc: Global, case: Case) -> Result<MemoryShelf, Stop> {
    let failing = positions(alloc, case.words("unread"))?;
    let mut shelf = MemoryShelf::new(alloc, failing.as_slice())?;
    for part in case.parts {
        if part.ends_case() {
            break;
        }
        if part.word.as_str() == "file" {
            shelf.put(part.rest.as_str(), part.text.as_str().as_bytes())?;
        }
    }
    Ok(shelf)
}

/// Runs the words over the files, writes the status, and gives what was written.
fn ran(alloc: Global, case: Case, out: &mut String) -> Result<MemorySink, Stop> {
    let words = words(alloc, case.words("words"))?;
    let mut shelf = shelf(alloc, case)?;
    let failing = positions(alloc, case.words("unwritten"))?;
    let mut sink = MemorySink::new(alloc, ROOM, failing.as_slice())?;
    let status = run(alloc, words.as_slice(), &mut shelf, &mut sink);
    writeln!(out, "status {}", status.code())?;
    Ok(sink)
}

/// The status, and what was written.
pub fn answered(alloc: Global, case: Case, out: &mut String) -> Result<(), Stop> {
    let sink = ran(alloc, case, out)?;
    push_bytes(out, sink.written())?;
    Ok(())
}

/// The status, and how many bytes were written.
pub fn measured(alloc: Global, case: Case, out: &mut String) -> Result<(), Stop> {
    let sink = ran(alloc, case, out)?;
    writeln!(out, "bytes {}", sink.written().len())?;
    Ok(())
}
