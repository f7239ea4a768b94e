//! Backward: the numbers of an operand that some numbers of the others take to a number of the result.
ghost use Rattle.std.specs.Prelude.{◌≡◌, ◌<◌, ◌*◌, ◌||◌, false, true, nat_le, length, if◌then◌else◌};
ghost use Rattle.std.specs.List.{list_any, filter};
ghost use Rattle.dt_bits.specs.Bits.{IsValue};
ghost use Rattle.dt_bits.specs.Ops.{IsOp, fits_at, some_used, value_of};
ghost use Rattle.dt_domain.specs.Domain.{Fitting, FittingAt, operand};
ghost use Rattle.dt_sets.specs.Sets.{IsSets, listed, listing, sets_holds, sets_is_empty, sets_full};
ghost use Rattle.dt_sets.specs.Forward.{valued, most_selections, numbers_at, some_used_empty};
ghost use Rattle.dt_sets.specs.Backward.{some_give, fixed_gives, is_possible, sets_backward};
ghost use Rattle.dt_sets.specs.Ops.{sets_ops};

use crate::Sets;
use crate::selections::{are_few, is_used_empty, used};
use dt_bits::{Bv, Op, apply, is_some_used};
use dt_domain::Domain;

/// Whether the first two operands give a number of the result with some number of the third.
#[inline(always)]
fn some_third(op: Op, outcome: &Sets, x: Bv, y: Bv, c: &Sets) -> bool
    requires outcome { IsSets outcome.now }
    requires op { IsOp op }
    requires x { IsValue x }
    requires y { IsValue y }
    requires c { IsSets c.now }
    requires few { c.now.many ≡ false }
    requires fits { fits_at op x.width.0 y.width.0 c.now.width.0 ≡ true }
    ensures { result ≡ list_any (λ z. sets_holds outcome.now (value_of op x y (valued c.now.width z))) (listed c.now) }
{
    for place in 0..c.count {
        let value = apply(op, x, y, c.value_at(place));
        if outcome.holds(value.bits) {
            return true;
        }
    }
    false
}

/// Whether the first operand gives a number of the result with some numbers of the others.
#[inline(always)]
fn some_second(op: Op, outcome: &Sets, x: Bv, b: &Sets, c: &Sets) -> bool
    requires outcome { IsSets outcome.now }
    requires op { IsOp op }
    requires x { IsValue x }
    requires b { IsSets b.now }
    requires b_few { b.now.many ≡ false }
    requires c { IsSets c.now }
    requires c_few { c.now.many ≡ false }
    requires fits { fits_at op x.width.0 b.now.width.0 c.now.width.0 ≡ true }
    ensures { result ≡ list_any (λ y. list_any (λ z. sets_holds outcome.now
        (value_of op x (valued b.now.width y) (valued c.now.width z))) (listed c.now)) (listed b.now) }
{
    for place in 0..b.count {
        if some_third(op, outcome, x, b.value_at(place), c) {
            return true;
        }
    }
    false
}

/// Whether some selection gives a number of the result.
fn some_first(op: Op, outcome: &Sets, a: &Sets, b: &Sets, c: &Sets) -> bool
    requires outcome { IsSets outcome.now }
    requires fitting { Fitting sets_ops op a.now b.now c.now }
    requires a_few { a.now.many ≡ false }
    requires b_few { b.now.many ≡ false }
    requires c_few { c.now.many ≡ false }
    ensures { result ≡ some_give op outcome.now a.now b.now c.now (listed a.now) (listed b.now) (listed c.now) }
{
    for place in 0..a.count {
        if some_second(op, outcome, a.value_at(place), b, c) {
            return true;
        }
    }
    false
}

/// Whether the operand at a place may be this number.
#[inline(always)]
fn may_be(op: Op, place: u32, value: Bv, outcome: &Sets, a: &Sets, b: &Sets, c: &Sets) -> bool
    requires outcome { IsSets outcome.now }
    requires fitting { Fitting sets_ops op a.now b.now c.now }
    requires place { place < 3 }
    requires value { IsValue value }
    requires width { value.width ≡ (operand place a.now b.now c.now).width }
    requires a_few { a.now.many ≡ false }
    requires b_few { b.now.many ≡ false }
    requires c_few { c.now.many ≡ false }
    ensures { result ≡ fixed_gives op place outcome.now a.now b.now c.now value.bits }
{
    let alone = Sets::single(value);
    match place {
        0 => some_first(op, outcome, &alone, b, c),
        1 => some_first(op, outcome, a, &alone, c),
        _ => some_first(op, outcome, a, b, &alone),
    }
}

/// The numbers of an operand that the others take to a number of the result.
#[inline(always)]
fn kept_numbers(
    op: Op,
    place: u32,
    outcome: &Sets,
    target: &Sets,
    a: &Sets,
    b: &Sets,
    c: &Sets,
) -> Sets
    requires outcome { IsSets outcome.now }
    requires fitting { Fitting sets_ops op a.now b.now c.now }
    requires place { place < 3 }
    requires target { target.now ≡ operand place a.now b.now c.now }
    requires a_few { a.now.many ≡ false }
    requires b_few { b.now.many ≡ false }
    requires c_few { c.now.many ≡ false }
    ensures { result ≡ listing target.now.width
        (filter (fixed_gives op place outcome.now a.now b.now c.now) (listed target.now)) }
{
    let mut kept = Sets::nothing(target.width);
    for at in 0..target.count {
        let value = target.value_at(at);
        let passes = may_be(op, place, value, outcome, a, b, c);
        kept.push_if(passes, value.bits);
    }
    kept
}

/// Backward, where the result and each used operand list their numbers.
#[inline(always)]
fn few_backward(
    op: Op,
    place: u32,
    outcome: &Sets,
    target: &Sets,
    a: &Sets,
    b: &Sets,
    c: &Sets,
) -> Sets
    requires fitting { FittingAt sets_ops op place outcome.now a.now b.now c.now }
    requires target { target.now ≡ operand place a.now b.now c.now }
    requires listed { some_used op a.now.many b.now.many c.now.many ≡ false }
    ensures { result ≡ (if nat_le (length (numbers_at op 0 a.now) * length (numbers_at op 1 b.now) * length (numbers_at op 2 c.now)) most_selections
        then listing target.now.width (filter (is_possible op place outcome.now a.now b.now c.now) (listed target.now))
        else sets_full target.now.width) }
{
    let first = used(op, 0, a);
    let second = used(op, 1, b);
    let third = used(op, 2, c);
    if !are_few(&first, &second, &third) {
        return Sets::all(target.width);
    }
    match place {
        0 => kept_numbers(op, place, outcome, &first, &first, &second, &third),
        1 => kept_numbers(op, place, outcome, &second, &first, &second, &third),
        _ => kept_numbers(op, place, outcome, &third, &first, &second, &third),
    }
}

/// Whether the result or a used operand holds nothing.
#[inline(always)]
fn is_none(op: Op, outcome: &Sets, a: &Sets, b: &Sets, c: &Sets) -> bool
    requires outcome { IsSets outcome.now }
    requires fitting { Fitting sets_ops op a.now b.now c.now }
    ensures { result ≡ (sets_is_empty outcome.now || some_used_empty op a.now b.now c.now) }
{
    let used = is_used_empty(op, a, b, c);
    outcome.is_empty() || used
}

/// Whether the result or a used operand doesn't list its numbers.
#[inline(always)]
pub fn is_unlisted(op: Op, outcome: &Sets, a: &Sets, b: &Sets, c: &Sets) -> bool
    ensures { result ≡ (outcome.now.many || some_used op a.now.many b.now.many c.now.many) }
{
    let used = is_some_used(op, a.many, b.many, c.many);
    outcome.many || used
}

/// The operand at a place, from the result and the others.
#[inline(always)]
pub fn backward_to(
    op: Op,
    place: u32,
    outcome: &Sets,
    target: &Sets,
    a: &Sets,
    b: &Sets,
    c: &Sets,
) -> Sets
    requires fitting { FittingAt sets_ops op place outcome.now a.now b.now c.now }
    requires target { target.now ≡ operand place a.now b.now c.now }
    ensures { result ≡ sets_backward op place outcome.now a.now b.now c.now }
{
    if is_none(op, outcome, a, b, c) {
        Sets::nothing(target.width)
    } else if is_unlisted(op, outcome, a, b, c) {
        Sets::all(target.width)
    } else {
        few_backward(op, place, outcome, target, a, b, c)
    }
}
