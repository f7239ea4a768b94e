//! The judge over a list and an image.
ghost use Rattle.dt_model.specs.Accepted.{accepted_data};
ghost use Rattle.dt_request.specs.Lists.{IsList};
ghost use Rattle.dt_image.specs.Images.{IsImage};

use crate::images::image;
use crate::lists::list;
use crate::models::model;
use crate::stop::Stop;
use dt_image::Image;
use dt_model::Accepted;
use dt_request::Requests;
use dt_satisfy::{Judged, judge, matches};
use dt_script::Case;
use std::alloc::{AllocError, Global};

fn push_judged(out: &mut String, judged: Judged) -> Result<(), AllocError> {
    match judged {
        Judged::Satisfies => out.push_str("satisfies\n"),
        Judged::Breaks(claim) => writeln!(out, "breaks {claim}"),
    }
}

/// What is found of an image that matches the list.
fn push_found(
    alloc: Global,
    out: &mut String,
    model: &Accepted,
    list: &Requests,
    image: &Image,
) -> Result<(), Stop>
    requires list { IsList (accepted_data model.now) list.now }
    requires image { IsImage (accepted_data model.now) image.now }
{
    if matches(model, list, image) {
        push_judged(out, judge(alloc, model, list, image)?)?;
    } else {
        out.push_str("no match\n")?;
    }
    Ok(())
}

/// The answer for a case of this model and list.
fn answer_of_list(
    alloc: Global,
    case: Case,
    out: &mut String,
    model: &Accepted,
    list: &Requests,
) -> Result<(), Stop>
    requires { IsList (accepted_data model.now) list.now }
{
    let image = image(alloc, model, case)?;
    push_found(alloc, out, model, list, &image)
}

/// The answer for a case of this model.
fn answer_for(alloc: Global, case: Case, out: &mut String, model: &Accepted) -> Result<(), Stop> {
    let list = list(alloc, model, case)?;
    answer_of_list(alloc, case, out, model, &list)
}

/// Whether the image meets the list, or which is the first claim that doesn't hold.
pub fn answer(alloc: Global, case: Case, out: &mut String) -> Result<(), Stop> {
    let model = model(alloc, case)?;
    answer_for(alloc, case, out, &model)
}
