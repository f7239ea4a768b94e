//! Problems of lists.
ghost use Rattle.dt_model.specs.Accepted.{accepted_data};
ghost use Rattle.dt_request.specs.Lists.{IsList};

use crate::stop::Stop;
use dt_bits::Op;
use dt_encode::encode;
use dt_model::Accepted;
use dt_request::Requests;
use dt_terms::{Problem, Term};
use std::alloc::{AllocError, Global};

fn push_widths(out: &mut String, terms: &[Term]) -> Result<(), AllocError> {
    out.push_str("choices")?;
    for term in terms {
        if let Term::Choice { width } = term {
            write!(out, " {}", width.0)?;
        }
    }
    out.push('\n')
}

fn push_sizes_of(out: &mut String, problem: &Problem) -> Result<(), Stop> {
    push_widths(out, problem.terms.as_slice())?;
    let terms = problem.terms.len();
    let required = problem.required.len();
    Ok(writeln!(out, "terms {terms}\nrequired {required}")?)
}

/// The widths of the choices, and how many terms there are and are required.
pub fn push_sizes(
    alloc: Global,
    out: &mut String,
    model: &Accepted,
    list: &Requests,
) -> Result<(), Stop>
    requires { IsList (accepted_data model.now) list.now }
{
    push_sizes_of(out, &encode(alloc, model, list)?)
}

/// An operator as a model's text names it, with its own numbers.
fn push_op(out: &mut String, op: Op) -> Result<(), AllocError> {
    match op {
        Op::Const { value } => write!(out, "const {} {}", value.width.0, value.bits),
        Op::Not => out.push_str("not"),
        Op::And => out.push_str("and"),
        Op::Or => out.push_str("or"),
        Op::Xor => out.push_str("xor"),
        Op::Add => out.push_str("add"),
        Op::Sub => out.push_str("sub"),
        Op::Slice { hi, lo } => write!(out, "slice {hi} {lo}"),
        Op::Concat => out.push_str("concat"),
        Op::SignExt { to } => write!(out, "sext {to}"),
        Op::Shl { by } => write!(out, "shl {by}"),
        Op::Shr { by } => write!(out, "shr {by}"),
        Op::Eq => out.push_str("eq"),
        Op::Ltu => out.push_str("ltu"),
        Op::Ite => out.push_str("ite"),
    }
}

/// The operands that the operator has.
fn push_operands(out: &mut String, op: Op, a: u32, b: u32, c: u32) -> Result<(), AllocError> {
    match dt_bits::arity(op) {
        0 => Ok(()),
        1 => write!(out, " {a}"),
        2 => write!(out, " {a} {b}"),
        _ => write!(out, " {a} {b} {c}"),
    }
}

fn push_term(out: &mut String, term: Term) -> Result<(), AllocError> {
    match term {
        Term::Choice { width } => write!(out, "choice {}", width.0),
        Term::Node { op, a, b, c, .. } => {
            push_op(out, op)?;
            push_operands(out, op, a, b, c)
        }
    }
}

fn push_all_terms(out: &mut String, terms: &[Term]) -> Result<(), AllocError> {
    for (i, term) in terms.iter().enumerate() {
        write!(out, "{i} ")?;
        push_term(out, *term)?;
        out.push('\n')?;
    }
    Ok(())
}

fn push_required(out: &mut String, required: &[u32]) -> Result<(), AllocError> {
    out.push_str("required")?;
    for term in required {
        write!(out, " {term}")?;
    }
    out.push('\n')
}

fn push_problem(out: &mut String, problem: &Problem) -> Result<(), Stop> {
    push_all_terms(out, problem.terms.as_slice())?;
    Ok(push_required(out, problem.required.as_slice())?)
}

/// Each term of the problem, and which are required.
pub fn push_terms(
    alloc: Global,
    out: &mut String,
    model: &Accepted,
    list: &Requests,
) -> Result<(), Stop>
    requires { IsList (accepted_data model.now) list.now }
{
    push_problem(out, &encode(alloc, model, list)?)
}
