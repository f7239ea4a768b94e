//! Images that numbers tell.
ghost use Rattle.std.specs.Prelude.{◌≡◌, true, IfOk};
ghost use Rattle.dt_model.specs.Accepted.{accepted_data};
ghost use Rattle.dt_request.specs.Lists.{IsList};
ghost use Rattle.dt_table.specs.Table.{table};
ghost use Rattle.dt_terms.specs.Values.{IsAssignment, solves};

use crate::images::push_image;
use crate::stop::Stop;
use dt_encode::{encode, image_of};
use dt_model::Accepted;
use dt_request::Requests;
use dt_script::{Case, numbers};
use dt_terms::Problem;
use std::alloc::Global;

/// Whether the numbers solve the problem.
fn is_solved(alloc: Global, problem: &Problem, numbers: &[u128]) -> Result<bool, Stop>
    requires { IsAssignment problem.now.terms numbers.now }
    ensures { IfOk result (λ solved. solved ≡ solves problem.now numbers.now) }
{
    let mut values = vec![in alloc; 0u128; problem.terms.len()]?;
    Ok(problem.eval(numbers, &mut values))
}

/// The printed image of numbers that solve the problem of the list.
fn push_image_of(
    alloc: Global,
    out: &mut String,
    model: &Accepted,
    list: &Requests,
    numbers: &[u128],
) -> Result<(), Stop>
    requires list { IsList (accepted_data model.now) list.now }
    requires assignment { IsAssignment (table (accepted_data model.now) list.now).terms numbers.now }
    requires solves { solves (table (accepted_data model.now) list.now) numbers.now ≡ true }
{
    push_image(alloc, out, model, &image_of(alloc, model, list, numbers)?)
}

/// The printed image of the numbers, where they solve this problem, which is the list's.
fn push_tried(
    alloc: Global,
    out: &mut String,
    model: &Accepted,
    list: &Requests,
    numbers: &[u128],
    problem: &Problem,
) -> Result<(), Stop>
    requires list { IsList (accepted_data model.now) list.now }
    requires problem { problem.now ≡ table (accepted_data model.now) list.now }
{
    if !problem.is_assignment(numbers) {
        return Ok(out.push_str("no assignment\n")?);
    }
    if !is_solved(alloc, problem, numbers)? {
        return Ok(out.push_str("fails\n")?);
    }
    push_image_of(alloc, out, model, list, numbers)
}

fn push_told_by(
    alloc: Global,
    out: &mut String,
    model: &Accepted,
    list: &Requests,
    numbers: &[u128],
) -> Result<(), Stop>
    requires { IsList (accepted_data model.now) list.now }
{
    let problem = encode(alloc, model, list)?;
    push_tried(alloc, out, model, list, numbers, &problem)
}

/// The printed image that the case's numbers tell.
pub fn push_told(
    alloc: Global,
    case: Case,
    out: &mut String,
    model: &Accepted,
    list: &Requests,
) -> Result<(), Stop>
    requires { IsList (accepted_data model.now) list.now }
{
    let numbers = numbers(alloc, case.words("numbers"))?;
    push_told_by(alloc, out, model, list, numbers.as_slice())
}
