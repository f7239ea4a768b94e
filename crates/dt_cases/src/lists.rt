//! Request lists.
ghost use Rattle.std.specs.Prelude.{IfOk};
ghost use Rattle.dt_model.specs.Accepted.{accepted_data};
ghost use Rattle.dt_request.specs.Lists.{IsList};

use crate::models::model;
use crate::output::push_text;
use crate::problems::{push_sizes, push_terms};
use crate::stop::Stop;
use crate::told::push_told;
use dt_model::Accepted;
use dt_request::{Requests, choice_bits, choice_count, print_requests, read_requests};
use dt_script::Case;
use std::alloc::{AllocError, Global};

/// The list of the case.
pub fn list(alloc: Global, model: &Accepted, case: Case) -> Result<Requests, Stop>
    ensures { IfOk result (IsList (accepted_data model.now)) }
{
    Ok(read_requests(alloc, model, case.text("list").as_bytes())?)
}

fn push_choices(out: &mut String, model: &Accepted, list: &Requests) -> Result<(), AllocError>
    requires { IsList (accepted_data model.now) list.now }
{
    let count = choice_count(model, list);
    let bits = choice_bits(model, list);
    writeln!(out, "choices {count} {bits}")
}

fn push_printed(
    alloc: Global,
    out: &mut String,
    model: &Accepted,
    list: &Requests,
) -> Result<(), Stop>
    requires { IsList (accepted_data model.now) list.now }
{
    push_text(out, print_requests(alloc, model, list)?.as_slice())
}

/// The list as it is printed, and how many numbers it leaves open, with their bits.
fn push_list(alloc: Global, out: &mut String, model: &Accepted, list: &Requests) -> Result<(), Stop>
    requires { IsList (accepted_data model.now) list.now }
{
    push_printed(alloc, out, model, list)?;
    Ok(push_choices(out, model, list)?)
}

fn push_answer(
    alloc: Global,
    call: &str,
    case: Case,
    out: &mut String,
    model: &Accepted,
    list: &Requests,
) -> Result<(), Stop>
    requires { IsList (accepted_data model.now) list.now }
{
    match call {
        "encode" => push_sizes(alloc, out, model, list),
        "terms" => push_terms(alloc, out, model, list),
        "told" => push_told(alloc, case, out, model, list),
        _ => push_list(alloc, out, model, list),
    }
}

/// The answer for a case of this model.
fn answer_for(
    alloc: Global,
    call: &str,
    case: Case,
    out: &mut String,
    model: &Accepted,
) -> Result<(), Stop> {
    let list = list(alloc, model, case)?;
    push_answer(alloc, call, case, out, model, &list)
}

/// The list as it is printed with what it leaves open, the sizes of its problem, the terms of that,
/// or the image that numbers tell.
pub fn answer(alloc: Global, call: &str, case: Case, out: &mut String) -> Result<(), Stop> {
    let model = model(alloc, case)?;
    answer_for(alloc, call, case, out, &model)
}
