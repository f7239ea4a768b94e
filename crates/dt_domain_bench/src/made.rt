//! Domains made of a seed.
ghost use Rattle.std.specs.Prelude.{◌≡◌, ◌<◌, ◌^◌};
ghost use Rattle.dt_bits.specs.Bits.{IsWidth};
ghost use Rattle.dt_domain.specs.Domain.{IsDomainOf};
ghost use Rattle.dt_known.specs.Known.{IsKnown};
ghost use Rattle.dt_range.specs.Range.{IsRange};

use dt_bits::Width;
use dt_domain::Domain;
use dt_known::Known;
use dt_pair::Pair;
use dt_range::Range;

/// A domain that can be made of the bits of a seed.
pub trait Made: Domain {
    /// A domain of this width, of which the seed's bits tell what it holds.
    fn made(seed: u128, width: Width) -> Self
        requires { IsWidth width.0 }
        ensures { IsDomainOf Self.ops width result };

    /// Some of its data, so that no call of `made` is left out.
    fn mixed(&self) -> u128;
}

/// A number of this width.
#[tactic(auto, using(dt_lemmas::proofs::Powers::top_fits))]
fn number_of(seed: u128, width: Width) -> u128
    requires { IsWidth width.0 }
    ensures { result < 2 ^ width.0 }
{
    seed >> (128 - width.0)
}

/// The numbers that have the bits of `held` at the seed's bits.
#[tactic(auto, using(dt_lemmas::proofs::Numbers::and_twice))]
fn known_with(seed: u128, held: u128, width: Width) -> Known
    requires { IsWidth width.0 }
    ensures is { IsKnown result }
    ensures width { result.width ≡ width }
{
    let mask = number_of(seed, width);
    Known {
        mask,
        value: held & mask,
        width,
        empty: false,
    }
}

/// The numbers between `held` and one of the seed.
fn range_with(seed: u128, held: u128, width: Width) -> Range
    requires width { IsWidth width.0 }
    requires held { held < 2 ^ width.0 }
    ensures is { IsRange result }
    ensures width { result.width ≡ width }
{
    let other = number_of(seed, width);
    Range {
        lo: held.min(other),
        hi: held.max(other),
        width,
    }
}

impl Made for Known {
    fn made(seed: u128, width: Width) -> Known {
        known_with(seed, seed >> 3, width)
    }

    fn mixed(&self) -> u128 {
        self.mask ^ self.value
    }
}

impl Made for Range {
    fn made(seed: u128, width: Width) -> Range {
        range_with(seed, number_of(seed.rotate_left(61), width), width)
    }

    fn mixed(&self) -> u128 {
        self.lo ^ self.hi
    }
}

impl Made for Pair {
    fn made(seed: u128, width: Width) -> Pair {
        let held = number_of(seed.rotate_left(29), width);
        let known = known_with(seed, held, width);
        let range = range_with(seed.rotate_left(61), held, width);
        Pair::normal(&known, &range)
    }

    fn mixed(&self) -> u128 {
        self.known.mask ^ self.known.value ^ self.range.lo ^ self.range.hi
    }
}
