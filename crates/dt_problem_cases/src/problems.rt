//! Problems of terms, line by line. `choice W` adds a choice of W bits, and an operator's name adds
//! its node: behind it stand the operator's own numbers, as in a model's text, and then its operands;
//! what is left out is 0. `const W N` is a constant. `require T` requires a term. Each of them is
//! answered by the position, `required`, or why it was refused. `term T` asks what a term is,
//! `choices` which terms are choices, and `values N..` what the terms are for these numbers of the
//! choices, and whether that solves.
ghost use Rattle.dt_bits.specs.Ops.{IsOp};

use dt_bits::{NoMemory, Op, Width};
use dt_script::{Case, numbers, operator, own_numbers, small};
use dt_terms::{Problem, Term, TermFault};
use std::alloc::{AllocError, Global};

fn fault_word(fault: TermFault) -> &'static str {
    match fault {
        TermFault::Memory => "memory",
        TermFault::Full => "full",
        TermFault::Operand => "operand",
        TermFault::Width => "width",
    }
}

fn push_position(out: &mut String, added: Result<u32, TermFault>) -> Result<(), AllocError> {
    match added {
        Ok(position) => writeln!(out, "{position}"),
        Err(fault) => writeln!(out, "{}", fault_word(fault)),
    }
}

fn add_choice(problem: &mut Problem, out: &mut String, width: u32) -> Result<(), AllocError> {
    if width < 1 || width > 128 {
        return out.push_str("no width\n");
    }
    push_position(out, problem.add_choice(Width(width)))
}

fn add_node(
    problem: &mut Problem,
    out: &mut String,
    op: Op,
    numbers: &[u128],
) -> Result<(), AllocError>
    requires { IsOp op }
{
    let own = own_numbers(op);
    let a = small(numbers, own);
    let b = small(numbers, own + 1);
    let c = small(numbers, own + 2);
    push_position(out, problem.add(op, a, b, c))
}

fn add_operator(
    problem: &mut Problem,
    out: &mut String,
    name: &str,
    numbers: &[u128],
) -> Result<(), AllocError> {
    match operator(name, numbers) {
        None => out.push_str("no operator\n"),
        Some(op) => add_node(problem, out, op, numbers),
    }
}

fn require(problem: &mut Problem, out: &mut String, term: u32) -> Result<(), AllocError> {
    match problem.require(term) {
        Ok(()) => out.push_str("required\n"),
        Err(fault) => writeln!(out, "{}", fault_word(fault)),
    }
}

fn push_term(problem: &Problem, out: &mut String, term: u32) -> Result<(), AllocError> {
    match problem.terms.get(term as usize) {
        None => out.push_str("none\n"),
        Some(Term::Choice { width }) => writeln!(out, "choice {}", width.0),
        Some(Term::Node { a, b, c, width, .. }) => writeln!(out, "node {a} {b} {c} {}", width.0),
    }
}

fn push_choices(problem: &Problem, out: &mut String) -> Result<(), AllocError> {
    out.push_str("choices")?;
    for choice in 0..problem.choice_count() {
        if let Some(term) = problem.choice_term(choice) {
            write!(out, " {term}")?;
        }
    }
    out.push('\n')
}

/// Writes the numbers, a space before each, and ends the line.
pub fn push_numbers(out: &mut String, numbers: &[u128]) -> Result<(), AllocError> {
    for number in numbers {
        write!(out, " {number}")?;
    }
    out.push('\n')
}

fn push_values(
    alloc: Global,
    problem: &Problem,
    out: &mut String,
    numbers: &[u128],
) -> Result<(), AllocError> {
    if !problem.is_assignment(numbers) {
        return out.push_str("no assignment\n");
    }
    let mut values = vec![in alloc; 0u128; problem.terms.len()]?;
    let solved = problem.eval(numbers, &mut values);
    out.push_str(if solved { "solves" } else { "fails" })?;
    push_numbers(out, values.as_slice())
}

fn add_line(
    alloc: Global,
    problem: &mut Problem,
    out: &mut String,
    line: &str,
) -> Result<(), AllocError> {
    let numbers = numbers(alloc, line)?;
    let numbers = numbers.as_slice();
    let first = small(numbers, 0);
    let word = line.split_whitespace().next().unwrap_or("");
    match word {
        "choice" => add_choice(problem, out, first),
        "require" => require(problem, out, first),
        "term" => push_term(problem, out, first),
        "choices" => push_choices(problem, out),
        "values" => push_values(alloc, problem, out, numbers),
        _ => add_operator(problem, out, word, numbers),
    }
}

fn add_lines(
    alloc: Global,
    problem: &mut Problem,
    out: &mut String,
    lines: &str,
) -> Result<(), AllocError> {
    for line in lines.lines() {
        add_line(alloc, problem, out, line)?;
    }
    Ok(())
}

/// The problem of the case, and an answer for each line of it.
pub fn problem(alloc: Global, case: Case, out: &mut String) -> Result<Problem, NoMemory> {
    let mut problem = Problem::new(alloc)?;
    add_lines(alloc, &mut problem, out, case.text("problem"))?;
    Ok(problem)
}

/// The problem of the case, without the answers.
pub fn problem_alone(alloc: Global, case: Case) -> Result<Problem, NoMemory> {
    let mut answers = String::new(alloc);
    problem(alloc, case, &mut answers)
}

/// An answer for each line of the problem.
pub fn answered(alloc: Global, case: Case, out: &mut String) -> Result<(), NoMemory> {
    problem(alloc, case, out)?;
    Ok(())
}
