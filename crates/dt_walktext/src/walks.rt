// The walks of all accesses.
ghost use Rattle.std.specs.Prelude.{◌≡◌, IfOk};
ghost use Rattle.dt_image.specs.Images.{IsImage};
ghost use Rattle.dt_model.specs.Accepted.{accepted_data};
ghost use Rattle.dt_walktext.specs.Printed.{walks_text};

use crate::rows::push_run;
use dt_bits::NoMemory;
use dt_image::Image;
use dt_model::Accepted;
use dt_walk::Walker;
use std::alloc::Global;

/// The text of the walks of all accesses of an image of the model, in order: for each the line
/// `access` with its number, a line `read` for each read that was made, and the line of its end.
/// Rules of legality aren't asked for.
///
/// # Errors
///
/// `NoMemory` where memory ran out.
pub fn print_walks(alloc: Global, model: &Accepted, image: &Image) -> Result<Vec<u8>, NoMemory>
    requires { IsImage (accepted_data model.now) image.now }
    ensures { IfOk result (λ text. text.items ≡ walks_text (accepted_data model.now) image.now) }
{
    let contexts = image.contexts.as_slice();
    let accesses = image.accesses.as_slice();
    let mut walker = Walker::new(alloc, model)?;
    let mut out = Vec::new(alloc);
    for (k, access) in accesses.iter().enumerate() {
        let regs = contexts[access.context as usize].as_slice();
        let run = walker.walk(regs, access.inputs.as_slice(), &image.memory);
        push_run(&mut out, model.model(), k, run)?;
    }
    Ok(out)
}
