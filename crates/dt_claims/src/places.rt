ghost use Rattle.std.specs.Prelude.{◌≡◌, ◌+◌, ◌*◌, count_by, length, IfOk};
ghost use Rattle.dt_model.specs.ModelData.{act_of, data_of};
ghost use Rattle.dt_model.specs.Faults.{is_read};
ghost use Rattle.dt_request.specs.Choices.{read_nodes};
ghost use Rattle.dt_table.specs.Table.{regs_at, inputs_at};
ghost use Rattle.dt_claims.specs.Views.{places_of};

use dt_bits::NoMemory;
use dt_model::{Act, Model, Node};
use dt_request::Requests;

/// Where the terms stand that claims are over: the first register and the first input of an access,
/// and the constants 0 and 1 of one bit. A physical address has `address` bits.
#[derive(Clone, Copy)]
pub(crate) struct Places {
    pub address: u32,
    pub regs: u32,
    pub inputs: u32,
    pub zero: u32,
    pub one: u32,
}

fn is_read(act: &Act) -> bool
    ensures { result ≡ is_read (act_of act.now) }
{
    matches!(act, Act::Read { .. })
}

#[tactic(auto, using(std::proofs::lemmas::List::Sums::count_by_more_yes, std::proofs::lemmas::List::Sums::count_by_more_no))]
fn reads_among(nodes: &[Node]) -> usize
    ensures { result ≡ count_by (λ n. is_read (act_of n.act)) nodes.now }
{
    let mut count = 0;
    for node in nodes {
        if is_read(&node.act) {
            count += 1;
        }
    }
    count
}

fn read_nodes(model: &Model) -> usize
    ensures { result ≡ read_nodes (data_of model.now) }
{
    reads_among(model.nodes.as_slice())
}

// The position behind so many groups of terms of one size, of which the first stands at `base`.
fn behind(base: u32, count: usize, size: usize) -> Result<u32, NoMemory>
    ensures { IfOk result (λ t. t ≡ base + count * size) }
{
    let Some(terms) = count.checked_mul(size) else {
        return Err(NoMemory);
    };
    if terms > (u32::MAX - base) as usize {
        return Err(NoMemory);
    }
    Ok(base + terms as u32)
}

// The first input of an access, by the number of the access; past the last, the end of the choices.
fn inputs_at(model: &Model, requests: &Requests, access: usize) -> Result<u32, NoMemory>
    ensures { IfOk result (λ t. t ≡ inputs_at (data_of model.now) requests.now access) }
{
    let contexts = behind(0, requests.contexts.len(), model.regs.len())?;
    let Some(choices) = model.inputs.len().checked_add(read_nodes(model)) else {
        return Err(NoMemory);
    };
    behind(contexts, access, choices)
}

/// Where the terms of an access stand, by its number and that of its context.
pub(crate) fn places_of(
    model: &Model,
    requests: &Requests,
    access: usize,
    context: u32,
) -> Result<Places, NoMemory>
    ensures { IfOk result (λ p. p ≡ places_of (data_of model.now) requests.now access context) }
{
    let zero = inputs_at(model, requests, requests.accesses.len())?;
    Ok(Places {
        address: model.address,
        regs: behind(0, context as usize, model.regs.len())?,
        inputs: inputs_at(model, requests, access)?,
        zero,
        one: behind(zero, 1, 1)?,
    })
}
