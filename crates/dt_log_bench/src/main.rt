//! Measures reading and printing logs. Its word names a file; the log in it is read and printed
//! again, and on standard error stands how many items it had, how many milliseconds reading and
//! printing took, and whether the same bytes came out. Without a word it makes a small log, prints
//! it and reads it back, and prints no figure.
//!
//! Proved: each call is made where its conditions hold, and the program ends.
//! Only tested: that it runs. The figures are the machine's.
#![tactic(auto)]

mod stop;

use crate::stop::Stop;
use dt_log::{Claim, Draft, Line, Log, print_log, read_log};
use std::alloc::Global;
use std::time::Instant;
use std::{env, fs};

/// How many splits the small log has.
const SPLITS: u32 = 100;

/// Steps and a try, and then a split of which the left tree is closed.
fn push_split(draft: &mut Draft, term: u32) -> Result<(), Stop> {
    draft.push(Line::Forward { term })?;
    draft.push(Line::Backward {
        parent: term,
        place: 1,
    })?;
    draft.push(Line::Try {
        choice: 0,
        value: u128::from(term),
    })?;
    draft.push(Line::Split { term, bit: 0 })?;
    draft.push(Line::Close { term })?;
    draft.push(Line::Split { term, bit: 1 })?;
    draft.push(Line::Loose)?;
    Ok(())
}

fn push_splits(draft: &mut Draft, splits: u32) -> Result<(), Stop> {
    for term in 0..splits {
        push_split(draft, term)?;
    }
    draft.push(Line::Unvisited)?;
    Ok(())
}

/// A log of each kind of item: at each split one tree is closed, and the last one is left open.
fn made(alloc: Global, splits: u32) -> Result<Log, Stop> {
    let mut draft = Draft::new(alloc);
    push_splits(&mut draft, splits)?;
    match draft.finish(Claim::Budget(u64::from(splits) * 2)) {
        None => Err(Stop::NoTree),
        Some(log) => Ok(log),
    }
}

/// Reads the log that a text spells.
fn read(alloc: Global, text: &[u8]) -> Result<Log, Stop> {
    if text.len() >= u32::MAX as usize {
        return Err(Stop::Long);
    }
    Ok(read_log(alloc, text)?)
}

/// How many items the log has that a text spells.
fn count(alloc: Global, text: &[u8]) -> Result<usize, Stop> {
    let log = read(alloc, text)?;
    Ok(log.lines.len())
}

/// Reads a printed log back.
fn try_text(rt: &HostRuntime, text: &[u8]) -> Result<(), Stop> {
    let items = count(rt.alloc(), text)?;
    let bytes = text.len();
    println!(rt; "{items} items in {bytes} bytes: every call ran")?;
    Ok(())
}

fn try_log(rt: &HostRuntime, log: &Log) -> Result<(), Stop> {
    try_text(rt, print_log(rt.alloc(), log)?.as_slice())
}

/// Makes a small log, prints it and reads it back.
fn try_small(rt: &HostRuntime) -> Result<(), Stop> {
    let log = made(rt.alloc(), SPLITS)?;
    try_log(rt, &log)
}

/// Tells how many items were read, and how long it took.
fn tell_read(rt: &HostRuntime, start: &Instant, log: &Log) -> Result<(), Stop> {
    let taken = start.elapsed(rt)?.as_millis();
    let items = log.lines.len();
    eprintln!(rt; "read {items} items: {taken} ms")?;
    Ok(())
}

/// Tells how many items were printed, how long it took, and whether the bytes are the same.
fn tell_printed(rt: &HostRuntime, start: &Instant, items: usize, same: bool) -> Result<(), Stop> {
    let taken = start.elapsed(rt)?.as_millis();
    eprintln!(rt; "printed {items} items: {taken} ms, same bytes {same}")?;
    Ok(())
}

/// Prints the log that was read from this text, and tells how long it took.
fn measure_print(rt: &HostRuntime, log: &Log, text: &[u8]) -> Result<(), Stop> {
    let start = Instant::now(rt)?;
    let again = print_log(rt.alloc(), log)?;
    tell_printed(rt, &start, log.lines.len(), again.as_slice() == text)
}

fn measure_log(rt: &HostRuntime, start: &Instant, log: &Log, text: &[u8]) -> Result<(), Stop> {
    tell_read(rt, start, log)?;
    measure_print(rt, log, text)
}

fn measure_text(rt: &HostRuntime, text: &[u8]) -> Result<(), Stop> {
    let start = Instant::now(rt)?;
    let log = read(rt.alloc(), text)?;
    measure_log(rt, &start, &log, text)
}

/// Reads the log in a file and prints it again, and tells how long each took.
fn measure(rt: &HostRuntime, path: &str) -> Result<(), Stop> {
    measure_text(rt, fs::read(rt, path)?.as_slice())
}

fn main(rt: HostRuntime) -> Result<(), Stop> {
    match env::args(&rt)?.nth(1) {
        None => try_small(&rt),
        Some(path) => measure(&rt, path.as_str()),
    }
}
