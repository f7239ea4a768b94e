ghost use Rattle.std.specs.Prelude.{◌≡◌, ◌++◌, replicate, IfOk, OnOk};
ghost use Rattle.std.specs.List.{flat_map, AllByRecursion};
ghost use Rattle.dt_bits.specs.Bits.{IsWidth, width};
ghost use Rattle.dt_model.specs.Accepted.{accepted_data};
ghost use Rattle.dt_encode.specs.Widths.{name_widths, access_widths, choice_widths};

use crate::sizes::read_nodes;
use dt_bits::{NoMemory, Width};
use dt_lex::Name;
use dt_model::{Accepted, Named};
use dt_request::{AccessWish, Requests};
use std::alloc::Global;

fn push_names(names: &[Named], widths: &mut Vec<Width>) -> Result<(), NoMemory>
    ensures { OnOk result (widths.new.items ≡ widths.old.items ++ name_widths names.now) }
{
    for named in names {
        widths.push(Width(named.width))?;
    }
    Ok(())
}

fn push_words(count: u64, word: u32, widths: &mut Vec<Width>) -> Result<(), NoMemory>
    ensures { OnOk result (widths.new.items ≡ widths.old.items ++ replicate count (width word)) }
{
    for _i in 0..count {
        widths.push(Width(word))?;
    }
    Ok(())
}

fn push_access(model: &Accepted, widths: &mut Vec<Width>) -> Result<(), NoMemory>
    ensures { OnOk result (widths.new.items
        ≡ widths.old.items ++ access_widths (accepted_data model.now)) }
{
    let m = model.model();
    push_names(m.inputs.as_slice(), widths)?;
    push_words(read_nodes(model), m.word, widths)
}

// For each context its registers.
fn push_contexts(
    model: &Accepted,
    contexts: &[Name],
    widths: &mut Vec<Width>,
) -> Result<(), NoMemory>
    ensures { OnOk result (widths.new.items ≡ widths.old.items
        ++ flat_map (λ _. name_widths (accepted_data model.now).regs) contexts.now) }
{
    let regs = model.model().regs.as_slice();
    for _context in contexts {
        push_names(regs, widths)?;
    }
    Ok(())
}

// For each access its inputs and words.
fn push_accesses(
    model: &Accepted,
    accesses: &[AccessWish],
    widths: &mut Vec<Width>,
) -> Result<(), NoMemory>
    ensures { OnOk result (widths.new.items ≡ widths.old.items
        ++ flat_map (λ _. access_widths (accepted_data model.now)) accesses.now) }
{
    for _access in accesses {
        push_access(model, widths)?;
    }
    Ok(())
}

/// The widths of a list's choices: for each context its registers, and then for each access its
/// inputs and a word for each read node.
pub fn choice_widths(
    alloc: Global,
    model: &Accepted,
    requests: &Requests,
) -> Result<Vec<Width>, NoMemory>
    ensures widths { IfOk result (λ widths.
        widths.items ≡ choice_widths (accepted_data model.now) requests.now) }
    ensures are_widths { IfOk result (λ widths. AllByRecursion (λ w. IsWidth w.0) widths.items) }
{
    let mut widths = Vec::new(alloc);
    push_contexts(model, requests.contexts.as_slice(), &mut widths)?;
    push_accesses(model, requests.accesses.as_slice(), &mut widths)?;
    Ok(widths)
}
