//! Cells of a problem over pairs, step by step from the root cells. `forward T` and `backward T P`
//! take a step, and `bit T B V` sets a bit; each is answered by what became of the cell. `cell T` asks
//! for a cell: its width, the mask and value of its known bits, and its range. `empty` asks for the
//! first empty cell, `tells forward T` and `tells backward T P` whether a step tells something new,
//! `unsettled` for one that does, and `copy` whether a copy is the same.
ghost use Rattle.dt_pair.specs.Ops.{pair_ops};
ghost use Rattle.dt_box.specs.Cells.{AreCells};

use crate::problems::problem;
use dt_bits::NoMemory;
use dt_box::{Cells, Changed, Step};
use dt_pair::Pair;
use dt_script::{Case, numbers, small};
use dt_terms::Problem;
use std::alloc::{AllocError, Global};

/// The word for what became of a cell.
pub fn changed_word(changed: Changed) -> &'static str {
    match changed {
        Changed::No => "no",
        Changed::Narrowed => "narrowed",
        Changed::BitKnown => "bit-known",
        Changed::Empty => "empty",
    }
}

/// The step of this name.
pub fn step_named(name: &str, numbers: &[u128]) -> Step {
    let first = small(numbers, 0);
    if name == "forward" {
        Step::Forward { term: first }
    } else {
        Step::Backward {
            parent: first,
            place: small(numbers, 1),
        }
    }
}

fn take(
    problem: &Problem,
    cells: &mut Cells<Pair>,
    out: &mut String,
    step: Step,
) -> Result<(), AllocError>
    requires { AreCells pair_ops problem.now.terms cells.old }
    ensures { AreCells pair_ops problem.now.terms cells.new }
{
    if !step.is_of(problem) {
        return out.push_str("no step\n");
    }
    let changed = cells.apply(problem, step);
    writeln!(out, "{}", changed_word(changed))
}

fn set_bit(
    problem: &Problem,
    cells: &mut Cells<Pair>,
    out: &mut String,
    numbers: &[u128],
) -> Result<(), AllocError>
    requires { AreCells pair_ops problem.now.terms cells.old }
    ensures { AreCells pair_ops problem.now.terms cells.new }
{
    let term = small(numbers, 0);
    let bit = small(numbers, 1);
    match problem.terms.get(term as usize) {
        Some(found) if bit < found.width().0 => {
            let changed = cells.set_bit(problem, term, bit, small(numbers, 2) == 1);
            writeln!(out, "{}", changed_word(changed))
        }
        _ => out.push_str("no bit\n"),
    }
}

fn push_cell(cells: &Cells<Pair>, out: &mut String, term: u32) -> Result<(), AllocError> {
    if term as usize >= cells.len() {
        return out.push_str("no cell\n");
    }
    let pair = cells.get(term);
    let known = pair.known;
    write!(
        out,
        "{} {:#x} {:#x}",
        known.width.0, known.mask, known.value
    )?;
    writeln!(out, " {:#x} {:#x}", pair.range.lo, pair.range.hi)
}

fn push_empty(cells: &Cells<Pair>, out: &mut String) -> Result<(), AllocError> {
    match cells.empty_cell() {
        None => out.push_str("none\n"),
        Some(term) => writeln!(out, "{term}"),
    }
}

fn push_step(out: &mut String, step: Step) -> Result<(), AllocError> {
    match step {
        Step::Forward { term } => writeln!(out, "forward {term}"),
        Step::Backward { parent, place } => writeln!(out, "backward {parent} {place}"),
    }
}

fn push_unsettled(
    problem: &Problem,
    cells: &Cells<Pair>,
    out: &mut String,
) -> Result<(), AllocError>
    requires { AreCells pair_ops problem.now.terms cells.now }
{
    if cells.empty_cell().is_some() {
        return out.push_str("a cell is empty\n");
    }
    match cells.unsettled(problem) {
        None => out.push_str("settled\n"),
        Some(step) => push_step(out, step),
    }
}

fn push_tells(
    problem: &Problem,
    cells: &Cells<Pair>,
    out: &mut String,
    step: Step,
) -> Result<(), AllocError>
    requires { AreCells pair_ops problem.now.terms cells.now }
{
    if !step.is_of(problem) {
        return out.push_str("no step\n");
    }
    out.push_str(if cells.tells(problem, step) {
        "tells\n"
    } else {
        "tells nothing\n"
    })
}

/// Whether two lists of cells are the same.
pub fn are_same(a: &Cells<Pair>, b: &Cells<Pair>) -> bool {
    if a.len() != b.len() || a.len() > 0xffff {
        return false;
    }
    for term in 0..a.len() as u32 {
        if a.get(term) != b.get(term) {
            return false;
        }
    }
    true
}

fn push_copy(alloc: Global, cells: &Cells<Pair>, out: &mut String) -> Result<(), AllocError> {
    match cells.copy(alloc) {
        Ok(copy) if are_same(&copy, cells) => out.push_str("same\n"),
        Ok(_) => out.push_str("another\n"),
        Err(_) => out.push_str("memory\n"),
    }
}

fn take_line(
    alloc: Global,
    problem: &Problem,
    cells: &mut Cells<Pair>,
    out: &mut String,
    line: &str,
) -> Result<(), AllocError>
    requires { AreCells pair_ops problem.now.terms cells.old }
    ensures { AreCells pair_ops problem.now.terms cells.new }
{
    let numbers = numbers(alloc, line)?;
    let numbers = numbers.as_slice();
    let mut words = line.split_whitespace();
    let word = words.next().unwrap_or("");
    match word {
        "forward" | "backward" => take(problem, cells, out, step_named(word, numbers)),
        "tells" => {
            let step = step_named(words.next().unwrap_or(""), numbers);
            push_tells(problem, cells, out, step)
        }
        "bit" => set_bit(problem, cells, out, numbers),
        "cell" => push_cell(cells, out, small(numbers, 0)),
        "empty" => push_empty(cells, out),
        "unsettled" => push_unsettled(problem, cells, out),
        "copy" => push_copy(alloc, cells, out),
        _ => out.push_str("no step\n"),
    }
}

/// An answer for each of these lines.
fn take_lines(
    alloc: Global,
    problem: &Problem,
    cells: &mut Cells<Pair>,
    out: &mut String,
    lines: &str,
) -> Result<(), NoMemory>
    requires { AreCells pair_ops problem.now.terms cells.old }
{
    for line in lines.lines() {
        take_line(alloc, problem, cells, out, line)?;
    }
    Ok(())
}

/// An answer for each step of the case from the root cells of the problem.
fn push_from_root(
    alloc: Global,
    problem: &Problem,
    case: Case,
    out: &mut String,
) -> Result<(), NoMemory> {
    let mut cells: Cells<Pair> = Cells::root(alloc, problem)?;
    take_lines(alloc, problem, &mut cells, out, case.text("steps"))
}

/// An answer for each step from the root cells of the problem, after those for its lines.
pub fn answered(alloc: Global, case: Case, out: &mut String) -> Result<(), NoMemory> {
    let problem = problem(alloc, case, out)?;
    push_from_root(alloc, &problem, case, out)
}
