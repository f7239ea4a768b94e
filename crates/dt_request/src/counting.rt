ghost use Rattle.std.specs.Prelude.{◌≡◌, ◌≤◌, ◌<◌, ◌^◌, length, count_by};
ghost use Rattle.dt_model.specs.Accepted.{accepted_data};
ghost use Rattle.dt_model.specs.ModelData.{act_of};
ghost use Rattle.dt_model.specs.Faults.{is_read};
ghost use Rattle.dt_request.specs.Lists.{IsList};
ghost use Rattle.dt_request.specs.Choices.{read_nodes, widths_of, choice_count, choice_bits};

use crate::known::is_read;
use crate::list::Requests;
use dt_model::{Accepted, Named, Node};

#[tactic(auto, using(std::proofs::lemmas::List::Sums::count_by_more_yes, std::proofs::lemmas::List::Sums::count_by_more_no))]
fn reads_among(nodes: &[Node]) -> u64
    ensures { result ≡ count_by (λ n. is_read (act_of n.act)) nodes.now }
{
    let mut count = 0;
    for node in nodes {
        if is_read(&node.act) {
            count += 1;
        }
    }
    count
}

fn read_nodes(model: &Accepted) -> u64
    ensures value { result ≡ read_nodes (accepted_data model.now) }
    ensures few { result ≤ 1024 }
{
    reads_among(model.model().nodes.as_slice())
}

fn total_width(names: &[Named]) -> u64
    requires { widths_of names.now < 2 ^ 64 }
    ensures { result ≡ widths_of names.now }
{
    names.iter().map(|named| u64::from(named.width)).sum()
}

fn reg_bits(model: &Accepted) -> u64
    ensures value { result ≡ widths_of (accepted_data model.now).regs }
    ensures few { result ≤ 4096 }
{
    total_width(model.model().regs.as_slice())
}

fn input_bits(model: &Accepted) -> u64
    ensures value { result ≡ widths_of (accepted_data model.now).inputs }
    ensures few { result ≤ 2048 }
{
    total_width(model.model().inputs.as_slice())
}

fn word_bits(model: &Accepted) -> u64
    ensures value { result ≡ (accepted_data model.now).word }
    ensures few { result ≤ 64 }
{
    u64::from(model.model().word)
}

fn reg_count(model: &Accepted) -> u64
    ensures value { result ≡ length (accepted_data model.now).regs }
    ensures few { result ≤ 32 }
{
    model.model().regs.len() as u64
}

fn input_count(model: &Accepted) -> u64
    ensures value { result ≡ length (accepted_data model.now).inputs }
    ensures few { result ≤ 16 }
{
    model.model().inputs.len() as u64
}

/// How many numbers a list of the model leaves open: a register of a context, an input of an
/// access, or the word of a read node in an access. It takes no memory.
pub fn choice_count(model: &Accepted, requests: &Requests) -> u64
    requires { IsList (accepted_data model.now) requests.now }
    ensures { result ≡ choice_count (accepted_data model.now) requests.now }
{
    let contexts = requests.contexts.len() as u64;
    let accesses = requests.accesses.len() as u64;
    contexts * reg_count(model) + accesses * (input_count(model) + read_nodes(model))
}

/// How many bits those numbers have: registers and inputs by their widths, a read node by the
/// model's word. It takes no memory.
pub fn choice_bits(model: &Accepted, requests: &Requests) -> u64
    requires { IsList (accepted_data model.now) requests.now }
    ensures { result ≡ choice_bits (accepted_data model.now) requests.now }
{
    let contexts = requests.contexts.len() as u64;
    let accesses = requests.accesses.len() as u64;
    contexts * reg_bits(model)
        + accesses * (input_bits(model) + read_nodes(model) * word_bits(model))
}
