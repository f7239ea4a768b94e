//! Measures what a problem of many terms and its cells cost. With an argument it builds a problem
//! of 4,000,000 terms, its root cells over pairs of known bits and a range, and who uses each term,
//! takes steps forward with a trail until it has a tenth as many pairs as there are terms, then every
//! step forward, and evaluates the problem once, and prints a line for each on standard error: how
//! many there were and how many milliseconds it took. Without one it does the same
//! for a small problem and prints no figure. With two, a file and a number, it reads a trace
//! (`src/trace.rt`), does its moves that many times, each time on root cells, and prints how many
//! changed a cell in which way and a digest of the last cells; `tests/steps.py` compares the time
//! and the cells with those of a C program.
//!
//! Proved: each call is made where its conditions hold, and the program ends.
//! Only tested: that it runs, and the cells of traces. The figures are the machine's.
#![tactic(auto)]

ghost use Rattle.std.specs.Prelude.{All, IfOk};
ghost use Rattle.dt_pair.specs.Ops.{pair_ops};
ghost use Rattle.dt_box.specs.Cells.{AreCells};
ghost use Rattle.dt_box_bench.specs.Moves.{IsMove};

mod moves;
mod stop;
mod trace;
mod work;

use crate::moves::{Counts, Move, digest, replay};
use crate::stop::Stop;
use crate::trace::{moves_of, problem_of};
use crate::work::{built, evaluated, kept, swept};
use dt_bits::Width;
use dt_box::{Cells, Trail, Watches};
use dt_pair::Pair;
use dt_terms::{Problem, Term};
use std::time::Instant;
use std::{env, fs};

/// How many terms the large problem has: as many as one may have.
const LARGE: u32 = 4_000_000;

/// How many terms the small problem has.
const SMALL: u32 = 100;

/// Prints what was done, to how many terms, and how long it took.
fn tell(
    rt: &HostRuntime,
    shown: bool,
    what: &str,
    count: u32,
    start: &Instant,
) -> Result<(), Stop> {
    if shown {
        let taken = start.elapsed(rt)?.as_millis();
        eprintln!(rt; "{what} {count}: {taken} ms")?;
    }
    Ok(())
}

/// Builds the problem.
fn build(rt: &HostRuntime, shown: bool, count: u32) -> Result<Problem, Stop> {
    let start = Instant::now(rt)?;
    let problem = built(rt.alloc(), count)?;
    tell(rt, shown, "built", count, &start)?;
    Ok(problem)
}

/// Makes its root cells.
fn root(rt: &HostRuntime, shown: bool, count: u32, problem: &Problem) -> Result<Cells<Pair>, Stop>
    ensures { IfOk result (AreCells pair_ops problem.now.terms) }
{
    let start = Instant::now(rt)?;
    let cells = Cells::root(rt.alloc(), problem)?;
    tell(rt, shown, "root cells", count, &start)?;
    Ok(cells)
}

/// Finds who uses each term.
fn watch(rt: &HostRuntime, shown: bool, count: u32, problem: &Problem) -> Result<(), Stop> {
    let start = Instant::now(rt)?;
    let _watches = Watches::new(rt.alloc(), problem)?;
    tell(rt, shown, "watches", count, &start)
}

/// Takes steps with a trail, until it has a tenth as many pairs as there are terms.
fn keep(
    rt: &HostRuntime,
    shown: bool,
    count: u32,
    problem: &Problem,
    cells: &mut Cells<Pair>,
) -> Result<(), Stop>
    requires { AreCells pair_ops problem.now.terms cells.old }
    ensures { AreCells pair_ops problem.now.terms cells.new }
{
    let start = Instant::now(rt)?;
    let mut trail = Trail::new(rt.alloc())?;
    let pairs = kept(problem, cells, &mut trail, u64::from(count / 10))?;
    let pairs = pairs.min(u64::from(u32::MAX)) as u32;
    tell(rt, shown, "kept pairs", pairs, &start)
}

/// Takes every step forward.
fn sweep(
    rt: &HostRuntime,
    shown: bool,
    problem: &Problem,
    cells: &mut Cells<Pair>,
) -> Result<(), Stop>
    requires { AreCells pair_ops problem.now.terms cells.old }
{
    let start = Instant::now(rt)?;
    let known = swept(problem, cells);
    tell(rt, shown, "stepped forward, known", known, &start)
}

/// Evaluates the problem, and says whether 0 for each choice solves it.
fn evaluate(rt: &HostRuntime, shown: bool, count: u32, problem: &Problem) -> Result<bool, Stop> {
    let start = Instant::now(rt)?;
    let solved = evaluated(rt.alloc(), problem)?;
    tell(rt, shown, "evaluated", count, &start)?;
    Ok(solved)
}

/// Prints what a term and a cell take, and what the problem answers to one term more.
fn tell_sizes(rt: &HostRuntime, problem: &mut Problem, solved: bool) -> Result<(), Stop> {
    let full = problem.add_choice(Width(1));
    let term = size_of::<Term>();
    let cell = size_of::<Pair>();
    eprintln!(rt; "a term {term} bytes, a cell {cell} bytes, solved {solved}, {full:?}")?;
    Ok(())
}

/// Finds who uses each term of the problem, and takes steps on its root cells.
fn step(
    rt: &HostRuntime,
    shown: bool,
    count: u32,
    problem: &Problem,
    cells: &mut Cells<Pair>,
) -> Result<(), Stop>
    requires { AreCells pair_ops problem.now.terms cells.old }
{
    watch(rt, shown, count, problem)?;
    keep(rt, shown, count, problem, cells)?;
    sweep(rt, shown, problem, cells)
}

/// Makes the root cells of the problem, and does the work on them.
fn measure_cells(rt: &HostRuntime, shown: bool, count: u32, problem: &Problem) -> Result<(), Stop> {
    let mut cells = root(rt, shown, count, problem)?;
    step(rt, shown, count, problem, &mut cells)
}

/// Does all the work on the problem, which has this many terms.
fn measure_problem(
    rt: &HostRuntime,
    shown: bool,
    count: u32,
    problem: &mut Problem,
) -> Result<(), Stop> {
    measure_cells(rt, shown, count, problem)?;
    let solved = evaluate(rt, shown, count, problem)?;
    if shown {
        tell_sizes(rt, problem, solved)?;
    }
    Ok(())
}

/// Does all the work on a problem of this many terms.
fn measure(rt: &HostRuntime, shown: bool, count: u32) -> Result<(), Stop> {
    let mut problem = build(rt, shown, count)?;
    measure_problem(rt, shown, count, &mut problem)
}

/// Does the moves so many times, each time on root cells, and prints what came of them.
fn repeat(rt: &HostRuntime, problem: &Problem, moves: &[Move], rounds: u32) -> Result<(), Stop>
    requires { All (IsMove problem.now.terms) moves.now }
{
    let root: Cells<Pair> = Cells::root(rt.alloc(), problem)?;
    let mut cells = root.copy(rt.alloc())?;
    let mut counts = Counts::none();
    for _round in 0..rounds {
        cells = root.copy(rt.alloc())?;
        replay(problem, moves, &mut cells, &mut counts);
    }
    print(rt, counts, digest(problem, &cells))
}

/// Does the moves that the text tells on its problem, so many times, and prints what came of them.
fn measure_moves(rt: &HostRuntime, problem: &Problem, text: &str, rounds: u32) -> Result<(), Stop> {
    let moves = moves_of(rt.alloc(), problem, text)?;
    repeat(rt, problem, moves.as_slice(), rounds)
}

/// Does the moves of the trace that is this text, so many times, and prints what came of them.
fn measure_text(rt: &HostRuntime, text: &str, rounds: u32) -> Result<(), Stop> {
    let problem = problem_of(rt.alloc(), text)?;
    measure_moves(rt, &problem, text, rounds)
}

/// Does the moves of the trace in a file, so many times, and prints what came of them.
fn measure_trace(rt: &HostRuntime, path: &str, rounds: u32) -> Result<(), Stop> {
    let text = fs::read_to_string(rt, path)?;
    measure_text(rt, text.as_str(), rounds)
}

/// Prints how many moves changed a cell in which way, and the digest of the last cells.
fn print(rt: &HostRuntime, counts: Counts, digest: u64) -> Result<(), Stop> {
    let Counts {
        no,
        narrowed,
        bit_known,
        empty,
    } = counts;
    println!(rt; "no {no} narrowed {narrowed} known {bit_known} empty {empty} digest {digest}")?;
    Ok(())
}

/// Does the moves of the trace in a file as often as the word says, once where it says nothing else.
fn run_trace(rt: &HostRuntime, path: &str, rounds: &str) -> Result<(), Stop> {
    measure_trace(rt, path, rounds.parse::<u32>().unwrap_or(1))
}

/// Does all the work on a small problem.
fn try_small(rt: &HostRuntime) -> Result<(), Stop> {
    measure(rt, false, SMALL)?;
    println!(rt; "problem and cells: every call ran")?;
    Ok(())
}

fn main(rt: HostRuntime) -> Result<(), Stop> {
    let mut words = env::args(&rt)?.skip(1);
    match (words.next(), words.next()) {
        (Some(path), Some(rounds)) => run_trace(&rt, path.as_str(), rounds.as_str()),
        (Some(_), None) => measure(&rt, true, LARGE),
        (None, _) => try_small(&rt),
    }
}
