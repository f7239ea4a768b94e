//! The outside, as two traits: a `Shelf` gives the bytes of files by their names, and a `Sink` takes
//! bytes. `MemoryShelf` and `MemorySink` are an outside in memory, which tells its bytes and whose
//! calls fail where a list says so; `FileShelf` and `OutSink` are the files of the system and the
//! standard output, which tell nothing.
//!
//! Proved: each of the four keeps to its trait: no more bytes than the limit, told bytes are given,
//! an answer that isn't Ok comes only with its cause, faults are counted at a failure and at no other
//! answer, and counts never fall. Over memory each answer is exactly what the files, the limit and
//! the list of failing calls say, but for want of memory, and with an empty list no file that was put
//! fails and no write within the room. `FileShelf` counts each byte that it gives, and takes one byte
//! more than the limit at most. Its loop gives, over any reader of std, all bytes that were left and
//! no others; the loop of `OutSink` writes, over any writer of std, all bytes, or after a failure a
//! first part of them.
//!
//! Only tested: that `MemoryShelf` and `MemorySink` are made where there is memory. That the files
//! and the standard output of the system are such a reader and such a writer is trusted.
#![tactic(auto)]

mod edge;
mod failing;
mod file_shelf;
mod memory_shelf;
mod memory_sink;
mod out_sink;

pub use edge::{Shelf, ShelfFault, Sink, SinkFault};
pub use file_shelf::FileShelf;
pub use memory_shelf::MemoryShelf;
pub use memory_sink::MemorySink;
pub use out_sink::OutSink;
