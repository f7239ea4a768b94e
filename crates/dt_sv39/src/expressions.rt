// Expressions over the registers and inputs of the model.
ghost use Rattle.std.specs.Prelude.{◌≡◌, IfOk};
ghost use Rattle.dt_model.specs.ModelData.{tree_of, var};
ghost use Rattle.dt_stage.specs.Trees.{is as equal, part as slice};
ghost use Rattle.dt_sv39.specs.Shipped.{va as address, satp as root, kind, is_bare as bare, is_sign_extended as sign_extended, serves as served, allows as allowed, permits as permitted, entry_at as entry};

use dt_bits::NoMemory;
use dt_model::Expr;
use dt_stage::{bit, both, choose, either, is, joined, no, part};
use std::alloc::Global;

const SATP: u32 = 0;

const SUM: u32 = 1;

const MXR: u32 = 2;

const VA: u32 = 0;

const KIND: u32 = 1;

const USER: u32 = 2;

const FETCH: u128 = 0;

const STORE: u128 = 2;

/// Bits of the virtual address.
pub fn va(alloc: Global, hi: u32, lo: u32) -> Result<Expr, NoMemory>
    ensures { IfOk result (λ e. tree_of e ≡ slice hi lo address) }
{
    part(alloc, hi, lo, Expr::Input(VA))
}

/// The access is of this kind: 0 for a fetch, 1 for a load, 2 for a store.
pub fn kind_is(alloc: Global, number: u128) -> Result<Expr, NoMemory>
    ensures { IfOk result (λ e. tree_of e ≡ equal kind 2 number) }
{
    is(alloc, Expr::Input(KIND), 2, number)
}

/// `satp` is 0.
pub fn is_bare(alloc: Global) -> Result<Expr, NoMemory>
    ensures { IfOk result (λ e. tree_of e ≡ bare) }
{
    is(alloc, Expr::Reg(SATP), 64, 0)
}

/// Bits of `satp`.
pub fn satp(alloc: Global, hi: u32, lo: u32) -> Result<Expr, NoMemory>
    ensures { IfOk result (λ e. tree_of e ≡ slice hi lo root) }
{
    part(alloc, hi, lo, Expr::Reg(SATP))
}

/// Bits 63 to 38 of the virtual address are all equal.
pub fn is_sign_extended(alloc: Global) -> Result<Expr, NoMemory>
    ensures { IfOk result (λ e. tree_of e ≡ sign_extended) }
{
    let zeros = is(alloc, va(alloc, 63, 38)?, 26, 0)?;
    let ones = is(alloc, va(alloc, 63, 38)?, 26, 67108863)?;
    either(alloc, zeros, ones)
}

/// The mode may use the page of entry `e`: U and, in S-mode, this SUM.
pub fn serves(alloc: Global, sum: Expr, e: u32) -> Result<Expr, NoMemory>
    ensures { IfOk result (λ t. tree_of t ≡ served (tree_of sum) (var e)) }
{
    let no_u = no(alloc, bit(alloc, 4, Expr::Var(e))?)?;
    let with_sum = both(alloc, sum, no(alloc, kind_is(alloc, FETCH)?)?)?;
    let supervisor = either(alloc, no_u, with_sum)?;
    choose(
        alloc,
        Expr::Input(USER),
        bit(alloc, 4, Expr::Var(e))?,
        supervisor,
    )
}

/// The page of entry `e` is executable, writable or readable as the kind asks, or executable with this
/// MXR.
pub fn allows(alloc: Global, mxr: Expr, e: u32) -> Result<Expr, NoMemory>
    ensures { IfOk result (λ t. tree_of t ≡ allowed (tree_of mxr) (var e)) }
{
    let executable = both(alloc, mxr, bit(alloc, 3, Expr::Var(e))?)?;
    let loads = either(alloc, bit(alloc, 1, Expr::Var(e))?, executable)?;
    let stores = bit(alloc, 2, Expr::Var(e))?;
    let others = choose(alloc, kind_is(alloc, STORE)?, stores, loads)?;
    let fetches = bit(alloc, 3, Expr::Var(e))?;
    choose(alloc, kind_is(alloc, FETCH)?, fetches, others)
}

/// The access may use entry `e` as a leaf.
pub fn permits(alloc: Global, e: u32) -> Result<Expr, NoMemory>
    ensures { IfOk result (λ t. tree_of t ≡ permitted (var e)) }
{
    let served_mode = serves(alloc, Expr::Reg(SUM), e)?;
    both(alloc, served_mode, allows(alloc, Expr::Reg(MXR), e)?)
}

/// The address of the entry of this index, in the table of this page number.
pub fn entry_at(alloc: Global, ppn: Expr, index: Expr) -> Result<Expr, NoMemory>
    ensures { IfOk result (λ e. tree_of e ≡ entry (tree_of ppn) (tree_of index)) }
{
    let zeros = Expr::Value { width: 3, bits: 0 };
    joined(alloc, ppn, joined(alloc, index, zeros)?)
}
