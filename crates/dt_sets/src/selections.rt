//! Forward: the values of all selections of listed numbers.
ghost use Rattle.std.specs.Prelude.{◌≡◌, ◌*◌, false, true, nat_lt, nat_le, if◌then◌else◌, map, length, ◌∷◌, []};
ghost use Rattle.std.specs.List.{flat_map};
ghost use Rattle.dt_bits.specs.Bits.{IsValue};
ghost use Rattle.dt_bits.specs.Ops.{IsOp, arity_of, fits_at, some_used, value_of};
ghost use Rattle.dt_domain.specs.Domain.{Fitting};
ghost use Rattle.dt_sets.specs.Lists.{rising};
ghost use Rattle.dt_sets.specs.Sets.{IsSets, listed, listing, sets_full, gathered};
ghost use Rattle.dt_sets.specs.Gather.{IsGathering, added_all};
ghost use Rattle.dt_sets.specs.Forward.{valued, width_after, most_selections, numbers_at, some_used_empty, values, values_of};
ghost use Rattle.dt_sets.specs.Ops.{sets_ops};

use crate::Sets;
use dt_bits::{Bv, Op, apply, arity, is_some_used, result_width};
use dt_domain::Domain;

/// At most so many selections are gone through.
const MOST_SELECTIONS: u32 = 64;

/// The operand at a place, and the one that lists 0 alone where the operator doesn't use it.
#[inline(always)]
pub fn used(op: Op, place: u32, operand: &Sets) -> Sets
    ensures { result ≡ (if nat_lt place (arity_of op) then operand.now
        else listing operand.now.width (0 ∷ [])) }
{
    if place < arity(op) {
        *operand
    } else {
        Sets::single(Bv {
            width: operand.width,
            bits: 0,
        })
    }
}

/// Whether the operands, which list their numbers, have few selections.
#[inline(always)]
pub fn are_few(a: &Sets, b: &Sets, c: &Sets) -> bool
    requires a_is { IsSets a.now }
    requires b_is { IsSets b.now }
    requires c_is { IsSets c.now }
    requires a_few { a.now.many ≡ false }
    requires b_few { b.now.many ≡ false }
    requires c_few { c.now.many ≡ false }
    ensures { result ≡ nat_le (length (listed a.now) * length (listed b.now) * length (listed c.now)) most_selections }
{
    a.count * b.count * c.count <= MOST_SELECTIONS
}

/// Puts in the values of the first two operands with each number of the third.
#[inline(always)]
fn add_third(gathered: &mut Sets, op: Op, x: Bv, y: Bv, c: &Sets)
    requires gathered { IsGathering gathered.old }
    requires op { IsOp op }
    requires x { IsValue x }
    requires y { IsValue y }
    requires c { IsSets c.now }
    requires few { c.now.many ≡ false }
    requires fits { fits_at op x.width.0 y.width.0 c.now.width.0 ≡ true }
    ensures is { gathered.new ≡ added_all gathered.old (map (λ z. value_of op x y (valued c.now.width z)) (listed c.now)) }
    ensures valid { IsGathering gathered.new }
{
    for place in 0..c.count {
        gathered.insert(apply(op, x, y, c.value_at(place)).bits);
    }
}

/// Puts in the values of the first operand with each number of the others.
#[inline(always)]
fn add_second(gathered: &mut Sets, op: Op, x: Bv, b: &Sets, c: &Sets)
    requires gathered { IsGathering gathered.old }
    requires op { IsOp op }
    requires x { IsValue x }
    requires b { IsSets b.now }
    requires b_few { b.now.many ≡ false }
    requires c { IsSets c.now }
    requires c_few { c.now.many ≡ false }
    requires fits { fits_at op x.width.0 b.now.width.0 c.now.width.0 ≡ true }
    ensures is { gathered.new ≡ added_all gathered.old
        (flat_map (λ y. map (λ z. value_of op x (valued b.now.width y) (valued c.now.width z)) (listed c.now)) (listed b.now)) }
    ensures valid { IsGathering gathered.new }
{
    for place in 0..b.count {
        add_third(gathered, op, x, b.value_at(place), c);
    }
}

/// Puts in the values of all selections.
fn add_first(gathered: &mut Sets, op: Op, a: &Sets, b: &Sets, c: &Sets)
    requires gathered { IsGathering gathered.old }
    requires fitting { Fitting sets_ops op a.now b.now c.now }
    requires a_few { a.now.many ≡ false }
    requires b_few { b.now.many ≡ false }
    requires c_few { c.now.many ≡ false }
    ensures is { gathered.new ≡ added_all gathered.old
        (values op a.now b.now c.now (listed a.now) (listed b.now) (listed c.now)) }
    ensures valid { IsGathering gathered.new }
{
    for place in 0..a.count {
        add_second(gathered, op, a.value_at(place), b, c);
    }
}

/// The values of all selections of listed numbers, where they can be listed.
#[inline(always)]
fn all_values(op: Op, a: &Sets, b: &Sets, c: &Sets) -> Sets
    requires fitting { Fitting sets_ops op a.now b.now c.now }
    requires a_few { a.now.many ≡ false }
    requires b_few { b.now.many ≡ false }
    requires c_few { c.now.many ≡ false }
    ensures { result ≡ gathered (width_after op a.now b.now c.now)
        (rising (values op a.now b.now c.now (listed a.now) (listed b.now) (listed c.now))) }
{
    let width = result_width(op, a.width, b.width, c.width);
    let mut gathered = Sets::nothing(width);
    add_first(&mut gathered, op, a, b, c);
    if gathered.many {
        Sets::all(width)
    } else {
        gathered
    }
}

/// Forward, where each used operand lists its numbers.
#[inline(always)]
pub fn few_forward(op: Op, a: &Sets, b: &Sets, c: &Sets) -> Sets
    requires fitting { Fitting sets_ops op a.now b.now c.now }
    requires listed { some_used op a.now.many b.now.many c.now.many ≡ false }
    ensures { result ≡ (if nat_le (length (numbers_at op 0 a.now) * length (numbers_at op 1 b.now) * length (numbers_at op 2 c.now)) most_selections
        then gathered (width_after op a.now b.now c.now) (rising (values_of op a.now b.now c.now))
        else sets_full (width_after op a.now b.now c.now)) }
{
    let first = used(op, 0, a);
    let second = used(op, 1, b);
    let third = used(op, 2, c);
    if are_few(&first, &second, &third) {
        all_values(op, &first, &second, &third)
    } else {
        Sets::all(result_width(op, a.width, b.width, c.width))
    }
}

/// Whether a used operand holds nothing.
#[inline(always)]
pub fn is_used_empty(op: Op, a: &Sets, b: &Sets, c: &Sets) -> bool
    requires { Fitting sets_ops op a.now b.now c.now }
    ensures { result ≡ some_used_empty op a.now b.now c.now }
{
    is_some_used(op, a.is_empty(), b.is_empty(), c.is_empty())
}
