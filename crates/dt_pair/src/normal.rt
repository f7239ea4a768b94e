//! The normal form of a Pair.
ghost use Rattle.std.specs.Prelude.{◌≡◌, ℕ, ◌≤◌, ◌<◌, ◌^◌, ◌↔◌, Some, true, false};
ghost use Rattle.dt_domain.specs.Domain.{IsNarrowed};
ghost use Rattle.dt_known.specs.Known.{IsKnown};
ghost use Rattle.dt_pair.specs.Ops.{pair_ops};
ghost use Rattle.dt_pair.specs.Pair.{AreEnds, AreParts, IsPair, IsCanonical, both_hold, pair_holds, no_pair, filled, least_of, normal};

use crate::Pair;
use crate::ends::{greatest_from, least_from};
use dt_bits::Width;
use dt_domain::Domain;
use dt_known::Known;
use dt_range::Range;

/// The Pair that holds nothing: both parts are empty.
#[inline(always)]
fn nothing(width: Width) -> Pair
    ensures { result ≡ no_pair width }
{
    Pair {
        known: Known {
            mask: 0,
            value: 0,
            width,
            empty: true,
        },
        range: Range {
            lo: 1,
            hi: 0,
            width,
        },
    }
}

/// The Pair of which these are the least and the greatest number: it also knows the bits above the
/// highest in which they differ.
#[inline(always)]
fn filled(known: &Known, lo: u128, hi: u128) -> Pair
    requires known { IsKnown known.now }
    requires order { lo ≤ hi }
    requires hi { hi < 2 ^ known.now.width.0 }
    ensures { result ≡ filled known.now lo hi }
{
    let range = Range {
        lo,
        hi,
        width: known.width,
    };
    let shared = range.known_mask();
    let known = Known {
        mask: known.mask | shared,
        value: known.value | lo & shared,
        width: known.width,
        empty: false,
    };
    Pair { known, range }
}

/// The Pair of these parts, of which `lo` is the least number that has the known bits.
#[inline(always)]
fn up_from(known: &Known, range: &Range, lo: u128) -> Pair
    requires parts { AreParts known.now range.now }
    requires full { known.now.empty ≡ false }
    requires least { Some lo ≡ least_of known.now range.now }
    requires within { lo ≤ range.now.hi }
    ensures { result ≡ normal known.now range.now }
{
    match greatest_from(known, range.hi) {
        Some(hi) => filled(known, lo, hi),
        None => nothing(known.width),
    }
}

/// The normal form of these parts.
#[inline(always)]
fn normalised(known: &Known, range: &Range) -> Pair
    requires { AreParts known.now range.now }
    ensures { result ≡ normal known.now range.now }
{
    if known.empty {
        return nothing(known.width);
    }
    match least_from(known, range.lo) {
        Some(lo) => if lo <= range.hi {
            up_from(known, range, lo)
        } else {
            nothing(known.width)
        },
        None => nothing(known.width),
    }
}

impl Pair {
    /// The Pair of these parts, in normal form: each is as narrow as the other makes it.
    ///
    /// The parts have one width. The numbers that are held stay; where there are none, both parts
    /// are empty. It works on whole machine words, with no loop.
    #[inline(always)]
    pub fn normal(known: &Known, range: &Range) -> Pair
        requires { AreParts known.now range.now }
        ensures is { result ≡ normal known.now range.now }
        ensures valid { IsPair result }
        ensures width { result.known.width ≡ known.now.width }
        ensures held { (x : ℕ) → pair_holds result x ≡ both_hold known.now range.now x }
        ensures empty { (result.known.empty ≡ true)
            ↔ ((x : ℕ) → both_hold known.now range.now x ≡ false) }
        ensures ends { result.known.empty ≡ false → AreEnds result }
        ensures canonical { IsCanonical result }
    {
        normalised(known, range)
    }
    /// The meet with the numbers that both parts hold, or None, which says that this is the Pair
    /// itself. The parts are compared as they are, so most calls normalise nothing.
    #[inline(always)]
    pub(crate) fn narrowed(&self, known: &Known, range: &Range) -> Option<Pair>
        requires self_is { IsPair self.now }
        requires parts { AreParts known.now range.now }
        requires widths { self.now.known.width ≡ known.now.width }
        ensures { IsNarrowed pair_ops self.now (normal known.now range.now) result }
    {
        if self.known.is_within(known) && self.range.is_within(range) {
            return None;
        }
        Some(Pair::normal(&self.known.meet(known), &self.range.meet(range)))
    }
}
