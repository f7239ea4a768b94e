//! A trail of cells over pairs, from the root cells on. `forward T` and `backward T P` take a step,
//! and `bit T B V` sets a bit; each is answered by what became of the cell and how long the trail is
//! then. `undo N` goes back to the length N at the end, which is answered by whether the cells are
//! the root cells again.
ghost use Rattle.std.specs.Prelude.{◌≡◌, ◌<◌, All, length};
ghost use Rattle.dt_pair.specs.Ops.{pair_ops};
ghost use Rattle.dt_box.specs.Cells.{AreCells};
ghost use Rattle.dt_box.specs.Watching.{watches_of};

use crate::problems::problem;
use crate::steps::{are_same, changed_word, step_named};
use dt_bits::NoMemory;
use dt_box::{Cells, Changed, Step, Trail, Watches};
use dt_pair::Pair;
use dt_script::{Case, numbers, small};
use dt_terms::Problem;
use std::alloc::{AllocError, Global};

fn take(
    problem: &Problem,
    cells: &mut Cells<Pair>,
    trail: &mut Trail<Pair>,
    step: Step,
) -> Result<Changed, NoMemory>
    requires cells { AreCells pair_ops problem.now.terms cells.old }
    requires terms { All (λ change. change.0 < length problem.now.terms) trail.old }
    ensures cells { AreCells pair_ops problem.now.terms cells.new }
    ensures terms { All (λ change. change.0 < length problem.now.terms) trail.new }
{
    if !step.is_of(problem) {
        return Ok(Changed::No);
    }
    cells.apply_kept(problem, step, trail)
}

fn set_bit(
    problem: &Problem,
    cells: &mut Cells<Pair>,
    trail: &mut Trail<Pair>,
    numbers: &[u128],
) -> Result<Changed, NoMemory>
    requires cells { AreCells pair_ops problem.now.terms cells.old }
    requires terms { All (λ change. change.0 < length problem.now.terms) trail.old }
    ensures cells { AreCells pair_ops problem.now.terms cells.new }
    ensures terms { All (λ change. change.0 < length problem.now.terms) trail.new }
{
    let term = small(numbers, 0);
    let bit = small(numbers, 1);
    match problem.terms.get(term as usize) {
        Some(found) if bit < found.width().0 => {
            cells.set_bit_kept(problem, term, bit, small(numbers, 2) == 1, trail)
        }
        _ => Ok(Changed::No),
    }
}

fn take_line(
    alloc: Global,
    problem: &Problem,
    cells: &mut Cells<Pair>,
    trail: &mut Trail<Pair>,
    line: &str,
) -> Result<Changed, NoMemory>
    requires cells { AreCells pair_ops problem.now.terms cells.old }
    requires terms { All (λ change. change.0 < length problem.now.terms) trail.old }
    ensures cells { AreCells pair_ops problem.now.terms cells.new }
    ensures terms { All (λ change. change.0 < length problem.now.terms) trail.new }
{
    let numbers = numbers(alloc, line)?;
    let numbers = numbers.as_slice();
    let word = line.split_whitespace().next().unwrap_or("");
    if word == "bit" {
        return set_bit(problem, cells, trail, numbers);
    }
    take(problem, cells, trail, step_named(word, numbers))
}

fn take_lines(
    alloc: Global,
    problem: &Problem,
    cells: &mut Cells<Pair>,
    trail: &mut Trail<Pair>,
    lines: &str,
    out: &mut String,
) -> Result<(), NoMemory>
    requires cells { AreCells pair_ops problem.now.terms cells.old }
    requires terms { All (λ change. change.0 < length problem.now.terms) trail.old }
    ensures cells { AreCells pair_ops problem.now.terms cells.new }
    ensures terms { All (λ change. change.0 < length problem.now.terms) trail.new }
{
    for line in lines.lines() {
        let changed = take_line(alloc, problem, cells, trail, line)?;
        writeln!(out, "{} {}", changed_word(changed), trail.len())?;
    }
    Ok(())
}

/// Goes back to the length that the case says, where the trail is that long.
fn undo(cells: &mut Cells<Pair>, trail: &mut Trail<Pair>, case: Case)
    requires terms { All (λ change. change.0 < length cells.old) trail.old }
{
    let length = case.words("undo").parse::<u64>().unwrap_or(0);
    if length <= trail.len() {
        cells.undo(trail, length);
    }
}

/// Writes whether the cells are the root cells, and how long the trail is.
fn push_end(
    root: &Cells<Pair>,
    cells: &Cells<Pair>,
    length: u64,
    out: &mut String,
) -> Result<(), NoMemory> {
    let cells = if are_same(cells, root) {
        "root cells"
    } else {
        "other cells"
    };
    Ok(writeln!(out, "{cells} {length}")?)
}

/// Takes the steps of the case and goes back, with an answer for each.
fn go_and_undo(
    alloc: Global,
    problem: &Problem,
    root: &Cells<Pair>,
    cells: &mut Cells<Pair>,
    trail: &mut Trail<Pair>,
    case: Case,
    out: &mut String,
) -> Result<(), NoMemory>
    requires cells { AreCells pair_ops problem.now.terms cells.old }
    requires terms { All (λ change. change.0 < length problem.now.terms) trail.old }
{
    take_lines(alloc, problem, cells, trail, case.text("steps"), out)?;
    undo(cells, trail, case);
    push_end(root, cells, trail.len(), out)
}

/// The answers from these root cells on.
fn push_from(
    alloc: Global,
    problem: &Problem,
    root: &Cells<Pair>,
    case: Case,
    out: &mut String,
) -> Result<(), NoMemory>
    requires { AreCells pair_ops problem.now.terms root.now }
{
    let mut cells = root.copy(alloc)?;
    let mut trail = Trail::new(alloc)?;
    go_and_undo(alloc, problem, root, &mut cells, &mut trail, case, out)
}

/// The answers from the root cells of the problem on.
fn push_from_root(
    alloc: Global,
    problem: &Problem,
    case: Case,
    out: &mut String,
) -> Result<(), NoMemory> {
    let root: Cells<Pair> = Cells::root(alloc, problem)?;
    push_from(alloc, problem, &root, case, out)
}

/// An answer for each line, from the root cells of the problem, and what undoing gives.
pub fn answered(alloc: Global, case: Case, out: &mut String) -> Result<(), NoMemory> {
    let problem = problem(alloc, case, out)?;
    push_from_root(alloc, &problem, case, out)
}

fn push_list(out: &mut String, users: &[u32]) -> Result<(), AllocError> {
    out.push_str("users")?;
    for user in users {
        write!(out, " {user}")?;
    }
    out.push('\n')
}

fn push_users(problem: &Problem, watches: &Watches, out: &mut String) -> Result<(), NoMemory>
    requires { watches.now ≡ watches_of problem.now.terms }
{
    for term in 0..problem.terms.len() as u32 {
        let users = watches.users(term);
        push_list(out, users)?;
    }
    Ok(())
}

fn push_watches(alloc: Global, problem: &Problem, out: &mut String) -> Result<(), NoMemory> {
    let watches = Watches::new(alloc, problem)?;
    push_users(problem, &watches, out)
}

/// For each term of the problem the nodes that use it.
pub fn users(alloc: Global, case: Case, out: &mut String) -> Result<(), NoMemory> {
    let problem = problem(alloc, case, out)?;
    push_watches(alloc, &problem, out)
}
