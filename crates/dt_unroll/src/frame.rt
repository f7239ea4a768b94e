ghost use Rattle.std.specs.Prelude.{◌≡◌, ◌≤◌, IfOk, OnOk, if◌then◌else◌, nat_le, ◌^◌};
ghost use Rattle.dt_forms.specs.Forms.{form_placed};
ghost use Rattle.dt_table.specs.Passing.{aligned, above, below, is_cell};
ghost use Rattle.dt_table.specs.Table.{align_of};
ghost use Rattle.dt_build.specs.Building.{placed_in};
ghost use Rattle.dt_unroll.specs.Fronts.{access_data, IsFrame};

use crate::places::Places;
use dt_bits::{NoMemory, Op, Width};
use dt_build::Builder;

/// What doesn't change while the nodes of an access are gone through: where names stand, the bits of
/// a word and of an address, the bounds of table memory in bytes, and where the constants 0 and 1 of
/// one bit stand.
#[derive(Clone, Copy)]
pub struct Frame<'a> {
    pub places: Places<'a>,
    pub word: u32,
    pub address: u32,
    pub lo: u128,
    pub hi: u128,
    pub zero: u32,
    pub one: u32,
}

// The power of two that a word's bytes are.
fn align_of(word: u32) -> u32
    ensures value { result ≡ align_of word }
    ensures small { result ≤ 3 }
{
    match word {
        8 => 0,
        16 => 1,
        32 => 2,
        _ => 3,
    }
}

// Where a cell is a multiple of a word's bytes.
fn aligned(builder: &mut Builder, frame: &Frame, cell: u32) -> Result<u32, NoMemory>
    ensures at { IfOk result (λ t. t ≡ (form_placed builder.old.terms (aligned (access_data frame.now) cell)).at) }
    ensures placed { OnOk result (builder.new ≡ placed_in builder.old (form_placed builder.old.terms (aligned (access_data frame.now) cell))) }
{
    let align = align_of(frame.word);
    if align == 0 {
        return Ok(frame.one);
    }
    let low = Op::Slice {
        hi: align - 1,
        lo: 0,
    };
    let part = builder.place(low, cell, 0, 0)?;
    let none = builder.number(Width(align), 0)?;
    builder.place(Op::Eq, part, none, 0)
}

// Where a cell is at the lower bound or above.
fn above(builder: &mut Builder, frame: &Frame, cell: u32) -> Result<u32, NoMemory>
    requires { IsFrame frame.now }
    ensures at { IfOk result (λ t. t ≡ (form_placed builder.old.terms (above (access_data frame.now) cell)).at) }
    ensures placed { OnOk result (builder.new ≡ placed_in builder.old (form_placed builder.old.terms (above (access_data frame.now) cell))) }
{
    if 1 << frame.address <= frame.lo {
        return Ok(frame.zero);
    }
    let bound = builder.number(Width(frame.address), frame.lo)?;
    let less = builder.place(Op::Ltu, cell, bound, 0)?;
    builder.place(Op::Not, less, 0, 0)
}

// Where a cell is below the upper bound.
fn below(builder: &mut Builder, frame: &Frame, cell: u32) -> Result<u32, NoMemory>
    requires { IsFrame frame.now }
    ensures at { IfOk result (λ t. t ≡ (form_placed builder.old.terms (below (access_data frame.now) cell)).at) }
    ensures placed { OnOk result (builder.new ≡ placed_in builder.old (form_placed builder.old.terms (below (access_data frame.now) cell))) }
{
    if 1 << frame.address <= frame.hi {
        return Ok(frame.one);
    }
    let bound = builder.number(Width(frame.address), frame.hi)?;
    builder.place(Op::Ltu, cell, bound, 0)
}

/// Where there is a word of table memory at a cell.
pub fn is_cell(builder: &mut Builder, frame: &Frame, cell: u32) -> Result<u32, NoMemory>
    requires { IsFrame frame.now }
    ensures at { IfOk result (λ t. t ≡ (form_placed builder.old.terms (is_cell (access_data frame.now) cell)).at) }
    ensures placed { OnOk result (builder.new ≡ placed_in builder.old (form_placed builder.old.terms (is_cell (access_data frame.now) cell))) }
{
    let whole = aligned(builder, frame, cell)?;
    let from = above(builder, frame, cell)?;
    let to = below(builder, frame, cell)?;
    let within = builder.place(Op::And, from, to, 0)?;
    builder.place(Op::And, whole, within, 0)
}
