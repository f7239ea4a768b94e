ghost use Rattle.std.specs.Prelude.{◌≡◌, ◌+◌, ◌*◌, ◌<◌, ◌≤◌, ◌^◌, length, IfOk};
ghost use Rattle.dt_model.specs.Accepted.{accepted_data};
ghost use Rattle.dt_request.specs.Choices.{read_nodes};
ghost use Rattle.dt_request.specs.Lists.{IsList};
ghost use Rattle.dt_table.specs.Images.{bits_from, contexts_told, accesses_told};
ghost use Rattle.dt_encode.specs.Telling.{valued};

use crate::sizes::read_nodes;
use crate::values::value_at;
use dt_bits::{NoMemory, Seq};
use dt_image::ImageAccess;
use dt_model::{Accepted, Named};
use dt_request::Requests;
use std::alloc::Global;

// The values of the choices from a position on, one for each name.
fn name_values(
    alloc: Global,
    values: &[u128],
    at: usize,
    names: &[Named],
) -> Result<Seq<u128>, NoMemory>
    requires { at + length names.now < 2 ^ 64 }
    ensures { IfOk result (λ numbers. numbers ≡ bits_from (valued values.now) at names.now) }
{
    let mut numbers = Seq::new(alloc);
    for i in 0..names.len() {
        numbers.push(value_at(values, at + i))?;
    }
    Ok(numbers)
}

/// The values of the registers of each context.
pub fn contexts_told(
    alloc: Global,
    model: &Accepted,
    values: &[u128],
    count: usize,
) -> Result<Seq<Seq<u128>>, NoMemory>
    requires { count ≤ 16 }
    ensures { IfOk result (λ contexts. contexts
        ≡ contexts_told (valued values.now) (accepted_data model.now) count 0) }
{
    let regs = model.model().regs.as_slice();
    let mut contexts = Seq::new(alloc);
    for c in 0..count {
        contexts.push(name_values(alloc, values, c * regs.len(), regs)?)?;
    }
    Ok(contexts)
}

// Where the first access's choices stand: behind the registers of all contexts.
fn first_access(model: &Accepted, requests: &Requests) -> usize
    requires { IsList (accepted_data model.now) requests.now }
    ensures at { result ≡ length requests.now.contexts * length (accepted_data model.now).regs }
    ensures few { result ≤ 512 }
{
    requests.contexts.len() * model.model().regs.len()
}

// How many choices an access has.
fn access_size(model: &Accepted) -> usize
    ensures size { result ≡ length (accepted_data model.now).inputs + read_nodes (accepted_data model.now) }
    ensures few { result ≤ 80 }
{
    model.model().inputs.len() + read_nodes(model) as usize
}

/// The accesses, each with the values of its inputs.
pub fn accesses_told(
    alloc: Global,
    model: &Accepted,
    requests: &Requests,
    values: &[u128],
) -> Result<Seq<ImageAccess>, NoMemory>
    requires { IsList (accepted_data model.now) requests.now }
    ensures { IfOk result (λ accesses. accesses
        ≡ accesses_told (valued values.now) (accepted_data model.now) requests.now 0
        requests.now.accesses) }
{
    let inputs = model.model().inputs.as_slice();
    let wishes = requests.accesses.as_slice();
    let first = first_access(model, requests);
    let size = access_size(model);
    let mut accesses = Seq::new(alloc);
    for (k, wish) in wishes.iter().enumerate() {
        accesses.push(ImageAccess {
            context: wish.context,
            inputs: name_values(alloc, values, first + k * size, inputs)?,
        })?;
    }
    Ok(accesses)
}
