ghost use Rattle.std.specs.Prelude.{IfOk};
ghost use Rattle.dt_model.specs.Accepted.{accepted_data};
ghost use Rattle.dt_request.specs.Lists.{IsList};
ghost use Rattle.dt_encode.specs.Encoding.{IsEncoded};

use crate::choices::choice_widths;
use dt_bits::{NoMemory, Width};
use dt_build::Builder;
use dt_claims::require_claims;
use dt_model::Accepted;
use dt_request::Requests;
use dt_table::Out;
use dt_terms::Problem;
use dt_unroll::build_accesses;
use std::alloc::Global;

/// The problem of a list, and for each access what stands for its nodes, by which an image is told
/// of numbers that solve the problem (`image_in`).
#[derive(Drop)]
pub struct Encoded {
    pub problem: Problem,
    pub outs: Vec<Vec<Out>>,
}

/// The problem of a list, with what stands for the nodes of its accesses. `NoMemory` where memory
/// ran out, and where the problem has no room.
pub fn build(alloc: Global, model: &Accepted, requests: &Requests) -> Result<Encoded, NoMemory>
    requires { IsList (accepted_data model.now) requests.now }
    ensures { IfOk result (IsEncoded (accepted_data model.now) requests.now) }
{
    let widths = choice_widths(alloc, model, requests)?;
    let mut builder = Builder::new(alloc, widths.as_slice())?;
    let bit = Width(1);
    let _zero = builder.number(bit, 0)?;
    let _one = builder.number(bit, 1)?;
    let outs = build_accesses(alloc, &mut builder, model, requests)?;
    require_claims(alloc, &mut builder, model, requests, outs.as_slice())?;
    Ok(Encoded {
        problem: builder.finish(),
        outs,
    })
}
