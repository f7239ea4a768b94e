// Which leaf entries a stage lets through, and its levels.
ghost use Rattle.std.specs.Prelude.{◌≡◌, IfOk};
ghost use Rattle.dt_model.specs.ModelData.{tree_of, var};
ghost use Rattle.dt_stage.specs.Level.{level_of};
ghost use Rattle.dt_stage.specs.Trees.{bit as one_bit};
ghost use Rattle.dt_sv39x4.specs.Shipped.{permits as permitted, stores as storing, level as placed_level};

use dt_bits::NoMemory;
use dt_model::Expr;
use dt_stage::{Level, bit, both, either};
use dt_sv39::{allows, kind_is, serves};
use std::alloc::Global;

const SUM: u32 = 2;

const VMXR: u32 = 3;

const HMXR: u32 = 4;

const STORE: u128 = 2;

/// What a stage's leaf entries are checked for: the access in the VS-stage, the read of an entry of
/// the VS-stage, or the access in the G-stage.
#[derive(Clone, Copy, Debug, PartialEq, Eq)]
pub enum Permission {
    Virtual,
    Implicit,
    Explicit,
}

// U of entry `e`.
fn is_for_user(alloc: Global, e: u32) -> Result<Expr, NoMemory>
    ensures { IfOk result (λ t. tree_of t ≡ one_bit 4 (var e)) }
{
    bit(alloc, 4, Expr::Var(e))
}

// Entry `e` may be used as a leaf.
fn permits(alloc: Global, permission: Permission, e: u32) -> Result<Expr, NoMemory>
    ensures { IfOk result (λ t. tree_of t ≡ permitted permission (var e)) }
{
    match permission {
        Permission::Virtual => {
            let mxr = either(alloc, Expr::Reg(VMXR), Expr::Reg(HMXR))?;
            let served = serves(alloc, Expr::Reg(SUM), e)?;
            both(alloc, served, allows(alloc, mxr, e)?)
        }
        Permission::Implicit => {
            let readable = bit(alloc, 1, Expr::Var(e))?;
            both(alloc, is_for_user(alloc, e)?, readable)
        }
        Permission::Explicit => {
            let allowed = allows(alloc, Expr::Reg(HMXR), e)?;
            both(alloc, is_for_user(alloc, e)?, allowed)
        }
    }
}

// The use stores.
fn stores(alloc: Global, permission: Permission) -> Result<Expr, NoMemory>
    ensures { IfOk result (λ t. tree_of t ≡ storing permission) }
{
    match permission {
        Permission::Implicit => Ok(Expr::Value { width: 1, bits: 0 }),
        Permission::Virtual => kind_is(alloc, STORE),
        Permission::Explicit => kind_is(alloc, STORE),
    }
}

/// A level: the variable of its entry, the entry's address, the exponent of its table's block, and its
/// leaves' node.
pub fn level(
    alloc: Global,
    permission: Permission,
    entry: u32,
    cell: Expr,
    granule: u32,
    leaf: u32,
) -> Result<Level, NoMemory>
    ensures { IfOk result (λ l. level_of l ≡ placed_level permission entry (tree_of cell) granule leaf) }
{
    Ok(Level {
        entry,
        cell,
        granule,
        permits: permits(alloc, permission, entry)?,
        stores: stores(alloc, permission)?,
        leaf,
    })
}
