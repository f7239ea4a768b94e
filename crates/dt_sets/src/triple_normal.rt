//! The normal form of a Triple.
ghost use Rattle.std.specs.Prelude.{◌≡◌, ℕ, ◌↔◌, ◌&&◌, true, false};
ghost use Rattle.std.specs.List.{filter};
ghost use Rattle.dt_pair.specs.Pair.{AreParts, IsPair, both_hold, pair_holds, normal};
ghost use Rattle.dt_sets.specs.Sets.{IsSets, listed, listing, sets_holds};
ghost use Rattle.dt_sets.specs.Triple.{IsTriple, IsCanonical, no_triple, of_numbers, of_pair, reduced, triple_holds};
ghost use Rattle.dt_sets.specs.TripleLaws.Reduced.{Reduces};

use crate::{Sets, Triple};
use dt_bits::Width;
use dt_domain::Domain;
use dt_known::Known;
use dt_pair::Pair;
use dt_range::Range;

/// The Triple that holds nothing: all parts are empty.
#[inline(always)]
pub fn nothing(width: Width) -> Triple
    ensures { result ≡ no_triple width }
{
    Triple {
        known: Known {
            mask: 0,
            value: 0,
            width,
            empty: true,
        },
        range: Range {
            lo: 1,
            hi: 0,
            width,
        },
        sets: Sets::nothing(width),
    }
}

/// The Triple that lists these numbers: it knows the bits on which they agree, and its range goes
/// from the first to the last.
#[inline(always)]
pub fn of_numbers(sets: &Sets) -> Triple
    requires sets { IsSets sets.now }
    requires few { sets.now.many ≡ false }
    ensures { result ≡ of_numbers sets.now.width (listed sets.now) }
{
    let width = sets.width;
    if sets.count == 0 {
        return nothing(width);
    }
    let mask = sets.agreed_bits();
    let lo = sets.at(0);
    let hi = sets.at(sets.count - 1);
    Triple {
        known: Known {
            mask,
            value: lo & mask,
            empty: false,
            width,
        },
        range: Range { lo, hi, width },
        sets: *sets,
    }
}

/// The Triple that lists no number.
#[inline(always)]
pub fn of_pair(pair: &Pair) -> Triple
    ensures { result ≡ of_pair pair.now }
{
    let width = pair.known.width;
    Triple {
        known: pair.known,
        range: pair.range,
        sets: if pair.known.empty {
            Sets::nothing(width)
        } else {
            Sets::everything(width)
        },
    }
}

impl Sets {
    /// The listed numbers that a Pair holds.
    #[inline(always)]
    pub(crate) fn held_by_pair(&self, pair: &Pair) -> Sets
        requires self_is { IsSets self.now }
        requires few { self.now.many ≡ false }
        requires pair { IsPair pair.now }
        ensures { result ≡ listing self.now.width (filter (pair_holds pair.now) (listed self.now)) }
    {
        let mut kept = Sets::nothing(self.width);
        for place in 0..self.count {
            let number = self.at(place);
            let passes = pair.holds(number);
            kept.push_if(passes, number);
        }
        kept
    }
}

impl Triple {
    /// A Pair and Sets of one width, each as narrow as the other makes it.
    #[inline(always)]
    pub(crate) fn reduced(pair: &Pair, sets: &Sets) -> Triple
        requires { Reduces pair.now sets.now }
        ensures { result ≡ reduced pair.now sets.now }
    {
        if sets.many {
            of_pair(pair)
        } else {
            of_numbers(&sets.held_by_pair(pair))
        }
    }

    /// The Triple of these parts, in normal form: each is as narrow as the others make it.
    ///
    /// The parts have one width. The numbers that all hold stay. Where numbers are listed, the known
    /// bits are those on which the held ones agree, and the range goes from the least to the greatest.
    #[inline(always)]
    pub fn normal(known: &Known, range: &Range, sets: &Sets) -> Triple
        requires parts { AreParts known.now range.now }
        requires sets { IsSets sets.now }
        requires widths { known.now.width ≡ sets.now.width }
        ensures is { result ≡ reduced (normal known.now range.now) sets.now }
        ensures valid { IsTriple result }
        ensures width { result.known.width ≡ known.now.width }
        ensures held { (x : ℕ) → triple_holds result x ≡ (both_hold known.now range.now x && sets_holds sets.now x) }
        ensures empty { (result.known.empty ≡ true)
            ↔ ((x : ℕ) → triple_holds result x ≡ false) }
        ensures canonical { IsCanonical result }
    {
        Triple::reduced(&Pair::normal(known, range), sets)
    }
}
