ghost use Rattle.std.specs.Prelude.{◌≡◌, ◌==◌, ◌++◌, List, map, find, option_map, OnOk};
ghost use Rattle.std.specs.List.{list_any};
ghost use Rattle.dt_satisfy.specs.Demands.{is_done, is_fault, is_page, pa_of, value_of, has, is_masked, is_within, is_side, meets};
ghost use Rattle.dt_satisfy.specs.Views.{made_data};

use dt_bits::NoMemory;
use dt_request::{Demand, Quantity};
use dt_walk::{End, ReadMade, Run, SideTaken};

/// An access as it is made: the values of its context's registers and of its inputs, and its run.
#[derive(Clone, Copy)]
pub struct MadeAccess<'a> {
    pub regs: &'a [u128],
    pub inputs: &'a [u128],
    pub run: &'a Run,
}

/// The read that is made at the node, if there is one.
pub fn read_at(reads: &[ReadMade], node: u32) -> Option<ReadMade>
    ensures { result ≡ find (λ m. m.node == node) reads.now }
{
    reads.iter().copied().find(|made| made.node == node)
}

// Whether the path has the node.
fn visits(path: &[u32], node: u32) -> bool
    ensures { result ≡ list_any (λ m. m == node) path.now }
{
    path.iter().any(|visited| *visited == node)
}

// The physical address, where the run ends with a result.
fn pa_of(end: End) -> Option<u128>
    ensures { result ≡ pa_of end }
{
    match end {
        End::Done { pa, .. } => Some(pa),
        End::Fault { .. } => None,
    }
}

fn is_done(end: End) -> bool
    ensures { result ≡ is_done end }
{
    matches!(end, End::Done { .. })
}

fn is_fault(asked: u32, end: End) -> bool
    ensures { result ≡ is_fault asked end }
{
    match end {
        End::Done { .. } => false,
        End::Fault { code, .. } => code == asked,
    }
}

fn is_page(asked: u32, end: End) -> bool
    ensures { result ≡ is_page asked end }
{
    match end {
        End::Done { page, .. } => page == asked,
        End::Fault { .. } => false,
    }
}

// The word of the read, where it is made.
fn word_of(made: Option<ReadMade>) -> Option<u128>
    ensures { result ≡ option_map (λ m. m.word) made }
{
    made.map(|made| made.word)
}

// The address of the read, where it is made.
fn cell_of(made: Option<ReadMade>) -> Option<u128>
    ensures { result ≡ option_map (λ m. m.cell) made }
{
    made.map(|made| made.cell)
}

// The number that the quantity has, where the read is made or the end is a result.
fn value_of(made: &MadeAccess, of: Quantity) -> Option<u128>
    ensures { result ≡ value_of (made_data made.now) of }
{
    match of {
        Quantity::Reg(i) => made.regs.get(i as usize).copied(),
        Quantity::Input(i) => made.inputs.get(i as usize).copied(),
        Quantity::Word(node) => word_of(read_at(made.run.reads.as_slice(), node)),
        Quantity::Cell(node) => cell_of(read_at(made.run.reads.as_slice(), node)),
        Quantity::Pa => pa_of(made.run.end),
    }
}

// Whether there is a number with this value in the bits of the mask.
fn is_masked(number: Option<u128>, mask: u128, value: u128) -> bool
    ensures { result ≡ has number (is_masked mask value) }
{
    number.is_some_and(|n| n & mask == value)
}

// Whether there is a number from lo to hi.
fn is_within(number: Option<u128>, lo: u128, hi: u128) -> bool
    ensures { result ≡ has number (is_within lo hi) }
{
    number.is_some_and(|n| lo <= n && n <= hi)
}

// Whether the side is this node's `then`, or its other side.
fn is_side(side: SideTaken, node: u32, by_then: bool) -> bool
    ensures { result ≡ is_side node by_then side }
{
    side.node == node && side.by_then == by_then
}

// Whether the run leaves the node, an `if` or a `read`, by that side.
fn leaves(sides: &[SideTaken], node: u32, by_then: bool) -> bool
    ensures { result ≡ list_any (is_side node by_then) sides.now }
{
    sides.iter().any(|side| is_side(*side, node, by_then))
}

// Whether the access meets the demand.
fn meets(made: &MadeAccess, demand: Demand) -> bool
    ensures { result ≡ meets (made_data made.now) demand }
{
    match demand {
        Demand::Via(node) => visits(made.run.path.as_slice(), node),
        Demand::Avoid(node) => !visits(made.run.path.as_slice(), node),
        Demand::Take { node, by_then } => leaves(made.run.sides.as_slice(), node, by_then),
        Demand::EndDone => is_done(made.run.end),
        Demand::EndFault(code) => is_fault(code, made.run.end),
        Demand::Page(exponent) => is_page(exponent, made.run.end),
        Demand::Bits { of, mask, value } => is_masked(value_of(made, of), mask, value),
        Demand::Span { of, lo, hi } => is_within(value_of(made, of), lo, hi),
    }
}

/// Appends whether the access meets each demand.
pub fn push_demands(
    made: &MadeAccess,
    demands: &[Demand],
    claims: &mut Vec<bool>,
) -> Result<(), NoMemory>
    ensures { OnOk result (claims.new.items ≡ claims.old.items ++ map (meets (made_data made.now)) demands.now) }
{
    for demand in demands {
        claims.push(meets(made, *demand))?;
    }
    Ok(())
}
