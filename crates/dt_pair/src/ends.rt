//! The least and the greatest number that has the known bits, from an end on.
ghost use Rattle.std.specs.Prelude.{◌≡◌, ℕ, ◌<◌, ◌^◌, ◌-◌, false};
ghost use Rattle.dt_known.specs.Known.{IsKnown};
ghost use Rattle.dt_pair.specs.Ends.{has_bits, candidate, least_from, greatest_from, IsLeastFound, IsGreatestFound};
ghost use Rattle.dt_pair.specs.Places.{IsPlaceFound};

use dt_bits::{bit_of, low_ones, ones};
use dt_known::Known;

/// The bits of `lo` above `place`, 1 there, and below it the known bits, with 0 where a bit isn't known.
#[inline(always)]
fn candidate(value: u128, lo: u128, place: u32) -> u128
    requires place { place < 128 }
    requires fits { candidate value lo place < 2 ^ 128 }
    ensures { result ≡ candidate value lo place }
{
    (lo >> place | 1) << place | value & low_ones(place)
}

/// The lowest bit at which there is a candidate.
///
/// Below the highest bit at which `lo` and the known bits clash there is none. Where the known bit
/// is 1 there, it is this one; else it is the lowest bit above that is 0 in `lo` and unknown.
#[inline(always)]
fn candidate_place(known: &Known, lo: u128) -> Option<u32>
    requires known { IsKnown known.now }
    requires lo { lo < 2 ^ known.now.width.0 }
    requires clash { has_bits known.now.mask known.now.value lo ≡ false }
    ensures { IsPlaceFound known.now.width.0 known.now.mask known.now.value lo result }
{
    let clash = (lo ^ known.value) & known.mask;
    let top = 127 - clash.leading_zeros();
    if bit_of(known.value, top) {
        return Some(top);
    }
    let open = (ones(known.width) ^ (lo | known.mask)) >> top;
    if open == 0 {
        None
    } else {
        Some(top + open.trailing_zeros())
    }
}

/// The least number of `lo` or more that has the known bits.
#[inline(always)]
pub fn least_from(known: &Known, lo: u128) -> Option<u128>
    requires known { IsKnown known.now }
    requires lo { lo < 2 ^ known.now.width.0 }
    ensures is { result ≡ least_from known.now.width.0 known.now.mask known.now.value lo }
    ensures least { IsLeastFound known.now.width.0 known.now.mask known.now.value lo result }
{
    if lo & known.mask == known.value {
        return Some(lo);
    }
    match candidate_place(known, lo) {
        Some(place) => Some(candidate(known.value, lo, place)),
        None => None,
    }
}

/// The greatest number of `hi` or less that has the known bits: the least one, where each number
/// stands for the largest less it.
#[inline(always)]
pub fn greatest_from(known: &Known, hi: u128) -> Option<u128>
    requires known { IsKnown known.now }
    requires hi { hi < 2 ^ known.now.width.0 }
    ensures is { result ≡ greatest_from known.now.width.0 known.now.mask known.now.value hi }
    ensures greatest { IsGreatestFound known.now.mask known.now.value hi result }
{
    let largest = ones(known.width);
    let turned = Known {
        mask: known.mask,
        value: known.mask ^ known.value,
        width: known.width,
        empty: false,
    };
    match least_from(&turned, largest - hi) {
        Some(lo) => Some(largest - lo),
        None => None,
    }
}
