// The model itself.
ghost use Rattle.std.specs.Prelude.{◌≡◌, map, IfOk};
ghost use Rattle.dt_model.specs.Accepted.{accepted_data};
ghost use Rattle.dt_model.specs.ModelData.{tree_of, node_of, data_of};
ghost use Rattle.dt_stage.specs.Stage.{GoesByLevels};
ghost use Rattle.dt_sv39x4.specs.Shipped.{guest_stage, guest_a, guest_b, guest_c, guest_final, virtual_stage, behind as shipped_behind, nodes as shipped_nodes, vsatp_rule as shipped_vsatp_rule, hgatp_rule as shipped_hgatp_rule, sv39x4_data};
ghost use Rattle.dt_sv39x4.specs.Law.{WalksAsManual, IsLegalAsManual};

use crate::choice::{choice, guest_pages, results, virtual_pages};
use crate::entries::{final_nodes, head, led_nodes, virtual_nodes};
use crate::faults::faults;
use crate::vars::vars;
use dt_bits::NoMemory;
use dt_model::{Accepted, Expr, Model, Node};
use dt_stage::{both, chained, either, is, part};
use dt_sv39::{model_of, named};
use std::alloc::Global;

const VSATP: u32 = 0;

const HGATP: u32 = 1;

// From the VS-stage's results on.
fn behind(alloc: Global) -> Result<Vec<Node>, NoMemory>
    ensures nodes { IfOk result (λ v. map node_of v.items ≡ shipped_behind) }
    ensures walks { IfOk result (λ v. GoesByLevels (guest_stage guest_final)) }
{
    let ends = chained(choice(alloc)?, chained(results(alloc)?, faults(alloc)?)?)?;
    let last = chained(final_nodes(alloc)?, chained(guest_pages(alloc)?, ends)?)?;
    let all = chained(led_nodes(alloc)?, chained(virtual_pages(alloc)?, last)?)?;
    Ok(all)
}

fn nodes(alloc: Global) -> Result<Vec<Node>, NoMemory>
    ensures nodes { IfOk result (λ v. map node_of v.items ≡ shipped_nodes) }
    ensures v { IfOk result (λ v. GoesByLevels virtual_stage) }
    ensures a { IfOk result (λ v. GoesByLevels (guest_stage guest_a)) }
    ensures b { IfOk result (λ v. GoesByLevels (guest_stage guest_b)) }
    ensures c { IfOk result (λ v. GoesByLevels (guest_stage guest_c)) }
    ensures g { IfOk result (λ v. GoesByLevels (guest_stage guest_final)) }
{
    let first = head(alloc)?;
    let stages = virtual_nodes(alloc)?;
    let rest = behind(alloc)?;
    let all = chained(first, chained(stages, rest)?)?;
    Ok(all)
}

// MODE of `vsatp` is 8, or `vsatp` is 0.
fn vsatp_rule(alloc: Global) -> Result<Expr, NoMemory>
    ensures { IfOk result (λ e. tree_of e ≡ shipped_vsatp_rule) }
{
    let mode = is(alloc, part(alloc, 63, 60, Expr::Reg(VSATP))?, 4, 8)?;
    either(alloc, mode, is(alloc, Expr::Reg(VSATP), 64, 0)?)
}

// MODE of `hgatp` is 8 and bits 59, 58, 1 and 0 are clear, or `hgatp` is 0.
fn hgatp_rule(alloc: Global) -> Result<Expr, NoMemory>
    ensures { IfOk result (λ e. tree_of e ≡ shipped_hgatp_rule) }
{
    let mode = is(alloc, part(alloc, 63, 60, Expr::Reg(HGATP))?, 4, 8)?;
    let high = is(alloc, part(alloc, 59, 58, Expr::Reg(HGATP))?, 2, 0)?;
    let low = is(alloc, part(alloc, 1, 0, Expr::Reg(HGATP))?, 2, 0)?;
    let mapped = both(alloc, mode, both(alloc, high, low)?)?;
    either(alloc, mapped, is(alloc, Expr::Reg(HGATP), 64, 0)?)
}

fn model(alloc: Global) -> Result<Model, NoMemory>
    ensures same { IfOk result (λ m. data_of m ≡ sv39x4_data) }
    ensures v { IfOk result (λ m. GoesByLevels virtual_stage) }
    ensures a { IfOk result (λ m. GoesByLevels (guest_stage guest_a)) }
    ensures b { IfOk result (λ m. GoesByLevels (guest_stage guest_b)) }
    ensures c { IfOk result (λ m. GoesByLevels (guest_stage guest_c)) }
    ensures g { IfOk result (λ m. GoesByLevels (guest_stage guest_final)) }
{
    let regs = vec![in alloc;
        named(b"vsatp", 64),
        named(b"hgatp", 64),
        named(b"sum", 1),
        named(b"vmxr", 1),
        named(b"hmxr", 1),
    ]?;
    let context = vec![in alloc; vsatp_rule(alloc)?, hgatp_rule(alloc)?]?;
    model_of(alloc, regs, vars(alloc)?, context, nodes(alloc)?)
}

// It is the shipped model, which has a certificate.
fn accepted(model: Model) -> Accepted
    requires { data_of model ≡ sv39x4_data }
    ensures { accepted_data result ≡ sv39x4_data }
{
    Accepted::certified(model)
}

/// The shipped model of two stages: one and the same, accepted without a check. Its walk is the
/// manual's, at the nodes that are named for its ends, walks and levels, and its rules hold of what is
/// legal.
///
/// # Errors
///
/// `NoMemory` where memory ran out.
pub fn sv39x4_model(alloc: Global) -> Result<Accepted, NoMemory>
    ensures same { IfOk result (λ m. accepted_data m ≡ sv39x4_data) }
    ensures walks { IfOk result (λ m. WalksAsManual (accepted_data m)) }
    ensures legal { IfOk result (λ m. IsLegalAsManual (accepted_data m)) }
{
    Ok(accepted(model(alloc)?))
}
