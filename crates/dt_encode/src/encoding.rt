ghost use Rattle.std.specs.Prelude.{◌≡◌, ◌⊎◌, IfOk, IfErr, IfSome, Some, Err};
ghost use Rattle.dt_model.specs.Accepted.{accepted_data};
ghost use Rattle.dt_request.specs.Lists.{IsList};
ghost use Rattle.dt_table.specs.Table.{table};
ghost use Rattle.dt_encode.specs.SizeFault.{size_fault};
ghost use Rattle.dt_encode.specs.Encoding.{TellsImages, TakesImages, HasChoices, IsEncoded};

use crate::EncodeFault;
use crate::building::{Encoded, build};
use crate::sizes::size_fault;
use dt_model::Accepted;
use dt_request::Requests;
use dt_terms::Problem;
use std::alloc::Global;

/// The problem of a list, as `encode` gives it, with what stands for the nodes of its accesses, so
/// that an image is told of numbers that solve it without building it again (`image_in`). The list
/// is of the model.
///
/// It takes memory and time as `encode` does.
///
/// # Errors
///
/// `TooLarge` exactly where a product is above its limit: the first in the order of reads, dones and
/// terms, with the product. `Memory` where memory ran out.
pub fn encode_list(
    alloc: Global,
    model: &Accepted,
    requests: &Requests,
) -> Result<Encoded, EncodeFault>
    requires { IsList (accepted_data model.now) requests.now }
    ensures encoded { IfOk result (IsEncoded (accepted_data model.now) requests.now) }
    ensures tells { IfOk result (λ e. TellsImages (accepted_data model.now) requests.now e.problem) }
    ensures takes { IfOk result (λ e. TakesImages (accepted_data model.now) requests.now e.problem) }
    ensures choices { IfOk result (λ e. HasChoices (accepted_data model.now) requests.now e.problem) }
    ensures refused { IfSome (size_fault (accepted_data model.now) requests.now)
        (λ fault. result ≡ Err fault) }
    ensures cause { IfErr result (λ e. (e ≡ EncodeFault.Memory)
        ⊎ (Some e ≡ size_fault (accepted_data model.now) requests.now)) }
{
    if let Some(fault) = size_fault(model, requests) {
        return Err(fault);
    }
    let encoded = build(alloc, model, requests)?;
    Ok(encoded)
}

/// The problem of a list: its choices are, for each context, its registers, and then, for each
/// access, its inputs and a word for each read node, in node order; what must be 1 says that the
/// choices are an image which satisfies the list. The list is of the model.
///
/// It takes memory for the terms, of which there are at most 4,000,000, and time linear in them and
/// in the nodes and operators of the model, for each access.
///
/// # Errors
///
/// `TooLarge` exactly where a product is above its limit: the first in the order of reads, dones and
/// terms, with the product. `Memory` where memory ran out.
pub fn encode(alloc: Global, model: &Accepted, requests: &Requests) -> Result<Problem, EncodeFault>
    requires { IsList (accepted_data model.now) requests.now }
    ensures problem { IfOk result (λ p. p ≡ table (accepted_data model.now) requests.now) }
    ensures tells { IfOk result (TellsImages (accepted_data model.now) requests.now) }
    ensures takes { IfOk result (TakesImages (accepted_data model.now) requests.now) }
    ensures choices { IfOk result (HasChoices (accepted_data model.now) requests.now) }
    ensures refused { IfSome (size_fault (accepted_data model.now) requests.now)
        (λ fault. result ≡ Err fault) }
    ensures cause { IfErr result (λ e. (e ≡ EncodeFault.Memory)
        ⊎ (Some e ≡ size_fault (accepted_data model.now) requests.now)) }
{
    let encoded = encode_list(alloc, model, requests)?;
    Ok(encoded.problem)
}
