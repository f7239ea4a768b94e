//! The program: it hands its words, the files of the system and the standard output to
//! `dt_top::run`, and ends with the code of the status.
//!
//! Proved: nothing but that it is safe and ends. Only tested: that it hands on the words, by the
//! stored run beside this folder; its own codes 11 and 13 are shown by nothing.
#![tactic(auto)]

use dt_edge::{FileShelf, OutSink};
use dt_top::run;
use std::process::ExitCode;
use std::rt::Env;
use std::{env, io};

// Memory ran out for the words.
const NO_MEMORY: u8 = 11;

// The system doesn't give the words as text.
const NO_TEXT: u8 = 13;

// The words after the program's name.
fn words<R: Env + AllocGlobal>(rt: &R) -> Result<Vec<String>, u8> {
    match env::args(rt) {
        Ok(words) => words.skip(1).collect(rt.alloc()).or(Err(NO_MEMORY)),
        Err(error) if error.kind() == io::ErrorKind::OutOfMemory => Err(NO_MEMORY),
        Err(_) => Err(NO_TEXT),
    }
}

fn main(rt: HostRuntime) -> ExitCode {
    let words = match words(&rt) {
        Ok(words) => words,
        Err(code) => return ExitCode::from(code),
    };
    let mut shelf = FileShelf::new(&rt);
    let mut sink = OutSink::new(&rt);
    ExitCode::from(run(rt.alloc(), words.as_slice(), &mut shelf, &mut sink).code())
}
