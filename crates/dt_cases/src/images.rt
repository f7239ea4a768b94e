//! Images.
ghost use Rattle.std.specs.Prelude.{IfOk};
ghost use Rattle.dt_model.specs.Accepted.{accepted_data};
ghost use Rattle.dt_image.specs.Images.{IsImage};

use crate::models::model;
use crate::output::push_text;
use crate::stop::Stop;
use crate::walks::{push_rules, push_walks};
use dt_image::{Image, print_image, read_image};
use dt_model::Accepted;
use dt_script::Case;
use std::alloc::Global;

/// The image of the case.
pub fn image(alloc: Global, model: &Accepted, case: Case) -> Result<Image, Stop>
    ensures { IfOk result (IsImage (accepted_data model.now)) }
{
    Ok(read_image(alloc, model, case.text("image").as_bytes())?)
}

/// The printed text of the image.
pub fn push_image(
    alloc: Global,
    out: &mut String,
    model: &Accepted,
    image: &Image,
) -> Result<(), Stop>
    requires { IsImage (accepted_data model.now) image.now }
{
    push_text(out, print_image(alloc, model, image)?.as_slice())
}

fn push_answer(
    alloc: Global,
    call: &str,
    out: &mut String,
    model: &Accepted,
    image: &Image,
) -> Result<(), Stop>
    requires { IsImage (accepted_data model.now) image.now }
{
    match call {
        "walk" => push_walks(alloc, out, model, image),
        "rules" => Ok(push_rules(out, model, image)?),
        _ => push_image(alloc, out, model, image),
    }
}

/// The answer for a case of this model.
fn answer_for(
    alloc: Global,
    call: &str,
    case: Case,
    out: &mut String,
    model: &Accepted,
) -> Result<(), Stop> {
    let image = image(alloc, model, case)?;
    push_answer(alloc, call, out, model, &image)
}

/// The walks of the accesses of the image, the values of the rules in each of its contexts and
/// accesses, or its printed text.
pub fn answer(alloc: Global, call: &str, case: Case, out: &mut String) -> Result<(), Stop> {
    let model = model(alloc, case)?;
    answer_for(alloc, call, case, out, &model)
}
