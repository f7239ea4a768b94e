//! Prints the model of a file in its one spelling. Its one word names the file. It ends with status
//! 0 where the file holds a text of an accepted model, else with 1 and nothing written, and with 2
//! where the output failed.
//!
//! Proved: nothing but that it is safe and ends; what it prints is `print_model`'s.
//! Only tested: that the text of the model beside it comes out as it went in.
#![tactic(auto)]

use dt_edge::{FileShelf, OutSink, Shelf, Sink};
use dt_modeltext::{print_model, read_model};
use std::alloc::Global;
use std::process::ExitCode;
use std::rt::Env;
use std::{env, io};

/// The most bytes of a file.
const LIMIT: u64 = 16_777_216;

/// The first word after the program's name.
fn word<R: Env + AllocGlobal>(rt: &R) -> io::Result<Option<String>> {
    Ok(env::args(rt)?.nth(1))
}

/// The model of a file, printed.
fn printed<S: Shelf>(alloc: Global, shelf: &mut S, name: &str) -> Option<Vec<u8>> {
    let text = shelf.read_all(alloc, name, LIMIT).ok()?;
    let model = read_model(alloc, text.as_slice()).ok()?;
    print_model(alloc, &model).ok()
}

fn main(rt: HostRuntime) -> ExitCode {
    let name = match word(&rt) {
        Ok(Some(name)) => name,
        _ => return ExitCode::from(1),
    };
    let mut shelf = FileShelf::new(&rt);
    match printed(rt.alloc(), &mut shelf, name.as_str()) {
        None => ExitCode::from(1),
        Some(text) => match OutSink::new(&rt).write_all(text.as_slice()) {
            Ok(()) => ExitCode::SUCCESS,
            Err(_) => ExitCode::from(2),
        },
    }
}
