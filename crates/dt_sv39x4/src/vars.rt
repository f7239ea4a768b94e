// The variables.
ghost use Rattle.std.specs.Prelude.{◌≡◌, ◌++◌, codes, IfOk};
ghost use Rattle.dt_sv39x4.specs.Shipped.{guest_vars, virtual_vars, vars as shipped_vars};

use dt_bits::NoMemory;
use dt_model::Named;
use dt_sv39::named;
use std::alloc::Global;

fn a_vars(alloc: Global) -> Result<Vec<Named>, NoMemory>
    ensures { IfOk result (λ v. v.items ≡ guest_vars (codes "a")) }
{
    Ok(vec![in alloc;
        named(b"a_at", 64),
        named(b"a_pte2", 64),
        named(b"a_pte1", 64),
        named(b"a_pte0", 64),
        named(b"a_pa", 56),
    ]?)
}

fn b_vars(alloc: Global) -> Result<Vec<Named>, NoMemory>
    ensures { IfOk result (λ v. v.items ≡ guest_vars (codes "b")) }
{
    Ok(vec![in alloc;
        named(b"b_at", 64),
        named(b"b_pte2", 64),
        named(b"b_pte1", 64),
        named(b"b_pte0", 64),
        named(b"b_pa", 56),
    ]?)
}

fn c_vars(alloc: Global) -> Result<Vec<Named>, NoMemory>
    ensures { IfOk result (λ v. v.items ≡ guest_vars (codes "c")) }
{
    Ok(vec![in alloc;
        named(b"c_at", 64),
        named(b"c_pte2", 64),
        named(b"c_pte1", 64),
        named(b"c_pte0", 64),
        named(b"c_pa", 56),
    ]?)
}

fn g_vars(alloc: Global) -> Result<Vec<Named>, NoMemory>
    ensures { IfOk result (λ v. v.items ≡ guest_vars (codes "g")) }
{
    Ok(vec![in alloc;
        named(b"g_at", 64),
        named(b"g_pte2", 64),
        named(b"g_pte1", 64),
        named(b"g_pte0", 64),
        named(b"g_pa", 56),
    ]?)
}

fn v_vars(alloc: Global) -> Result<Vec<Named>, NoMemory>
    ensures { IfOk result (λ v. v.items ≡ virtual_vars) }
{
    Ok(vec![in alloc;
        named(b"v_pte2", 64),
        named(b"v_pte1", 64),
        named(b"v_pte0", 64),
        named(b"v_page", 5),
        named(b"g_page", 5),
    ]?)
}

fn chained(vars: Vec<Named>, more: Vec<Named>) -> Result<Vec<Named>, NoMemory>
    ensures { IfOk result (λ v. v.items ≡ vars.items ++ more.items) }
{
    let mut vars = vars;
    let mut more = more;
    vars.append(&mut more)?;
    Ok(vars)
}

/// The five variables of each G-stage, then the VS-stage's entries and both pages.
pub fn vars(alloc: Global) -> Result<Vec<Named>, NoMemory>
    ensures { IfOk result (λ v. v.items ≡ shipped_vars) }
{
    let last = chained(g_vars(alloc)?, v_vars(alloc)?)?;
    let rest = chained(b_vars(alloc)?, chained(c_vars(alloc)?, last)?)?;
    let all = chained(a_vars(alloc)?, rest)?;
    Ok(all)
}
