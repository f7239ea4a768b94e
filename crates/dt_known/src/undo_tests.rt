//! Backward of Eq and Ite.
ghost use Rattle.std.specs.Prelude.{◌≡◌, ℕ, ◌^◌, ◌<◌, None, ◌&&◌, if◌then◌else◌};
ghost use Rattle.dt_bits.specs.Bits.{bit, width};
ghost use Rattle.dt_known.specs.Known.{IsKnown, known_bit, from_bits, nothing, are_apart};
ghost use Rattle.dt_known.specs.Backward.{is_only_unknown, apart_bit, are_same, eq_back, eq_conflict, test_bit};

use crate::Known;
use crate::compare::flag_of;
use crate::undo::unknown;
use dt_bits::{Width, ones};

/// The word of the only bit that isn't known, or 0 where there are more or none.
#[tactic(auto, using(crate::proofs::TestWords::lowest_below))]
fn only_unknown(a: &Known) -> u128
    requires { IsKnown a.now }
    ensures fits { result < 2 ^ a.now.width.0 }
    ensures bits { (i : ℕ) → i < a.now.width.0 → bit result i ≡ is_only_unknown a.now i }
{
    let unknown = ones(a.width) ^ a.mask;
    if unknown == 0 {
        return 0;
    }
    let lowest = 1 << unknown.trailing_zeros();
    if unknown == lowest { unknown } else { 0 }
}

/// An operand of Eq that differs from `other`.
fn apart_of(operand: &Known, other: &Known) -> Known
    requires operand { IsKnown operand.now }
    requires other { IsKnown other.now }
    requires widths { operand.now.width ≡ other.now.width }
    ensures { result ≡ from_bits operand.now.width (apart_bit operand.now other.now) }
{
    if !other.is_all_known() || operand.is_apart(other) {
        return unknown(operand.width);
    }
    let only = only_unknown(operand);
    Known::of_words(only, only & !other.value, operand.width)
}

/// Both operands of Eq are known, and equal.
fn is_same(operand: &Known, other: &Known) -> bool
    requires operand { IsKnown operand.now }
    requires other { IsKnown other.now }
    ensures { result ≡ are_same operand.now other.now }
{
    operand.is_all_known() && other.is_all_known() && !operand.is_apart(other)
}

/// An operand of Eq, where `other` is the other operand.
pub fn eq_back_of(outcome: &Known, operand: &Known, other: &Known) -> Known
    requires operand { IsKnown operand.now }
    requires other { IsKnown other.now }
    requires widths { operand.now.width ≡ other.now.width }
    ensures { result ≡ (if eq_conflict (known_bit outcome.now 0) operand.now other.now
        then nothing operand.now.width
        else from_bits operand.now.width
        (eq_back (known_bit outcome.now 0) operand.now other.now)) }
{
    match outcome.lowest() {
        Some(true) => Known::of_words(other.mask, other.value, operand.width),
        Some(false) => if is_same(operand, other) {
            Known::nothing(operand.width)
        } else {
            apart_of(operand, other)
        },
        None => unknown(operand.width),
    }
}

/// The test of Ite, where the result rules out a branch.
pub fn test_of(outcome: &Known, first: &Known, second: &Known) -> Known
    requires outcome { IsKnown outcome.now }
    requires first { IsKnown first.now }
    requires second { IsKnown second.now }
    ensures { result ≡ (if are_apart outcome.now first.now && are_apart outcome.now second.now
        then nothing (width 1)
        else from_bits (width 1) (λ i. test_bit outcome.now first.now second.now)) }
{
    match (outcome.is_apart(first), outcome.is_apart(second)) {
        (true, true) => Known::nothing(Width(1)),
        (true, false) => flag_of(Some(false)),
        (false, true) => flag_of(Some(true)),
        (false, false) => flag_of(None),
    }
}

/// The result where the branch is chosen, and else nothing known.
#[tactic(auto, using(crate::proofs::TestWords::chosen_words))]
pub fn chosen_of(chosen: bool, outcome: &Known) -> Known
    requires { IsKnown outcome.now }
    ensures { result ≡ from_bits outcome.now.width
        (λ i. if chosen then known_bit outcome.now i else None) }
{
    if chosen {
        Known::of_words(outcome.mask, outcome.value, outcome.width)
    } else {
        unknown(outcome.width)
    }
}
