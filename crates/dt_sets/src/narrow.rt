//! All numbers, the listed numbers that pass a test, and the bits on which they agree.
ghost use Rattle.std.specs.Prelude.{◌≡◌, ◌<◌, false, not};
ghost use Rattle.std.specs.List.{filter};
ghost use Rattle.dt_bits.specs.Bits.{IsWidth, bit, differs};
ghost use Rattle.dt_sets.specs.Sets.{IsSets, listed, listing, sets_holds, sets_full, sets_mask};

use crate::Sets;
use dt_bits::{Width, bit_of, ones};
use dt_domain::Domain;

impl Sets {
    /// All numbers of the width, which are listed where there is room for them.
    #[inline(always)]
    pub(crate) fn all(width: Width) -> Sets
        requires { IsWidth width.0 }
        ensures { result ≡ sets_full width }
    {
        match width.0 {
            1 => Sets {
                width,
                many: false,
                count: 2,
                numbers: [0, 1, 0, 0, 0, 0, 0, 0],
            },
            2 => Sets {
                width,
                many: false,
                count: 4,
                numbers: [0, 1, 2, 3, 0, 0, 0, 0],
            },
            3 => Sets {
                width,
                many: false,
                count: 8,
                numbers: [0, 1, 2, 3, 4, 5, 6, 7],
            },
            _ => Sets::everything(width),
        }
    }

    /// The listed numbers that the other holds.
    #[inline(always)]
    pub(crate) fn held_by(&self, other: &Sets) -> Sets
        requires self_is { IsSets self.now }
        requires few { self.now.many ≡ false }
        requires other_is { IsSets other.now }
        ensures { result ≡ listing self.now.width (filter (sets_holds other.now) (listed self.now)) }
    {
        let mut kept = Sets::nothing(self.width);
        for place in 0..self.count {
            let number = self.at(place);
            let passes = other.holds(number);
            kept.push_if(passes, number);
        }
        kept
    }

    /// The listed numbers whose bit has this value.
    #[inline(always)]
    pub(crate) fn with_bit_at(&self, place: u32, value: bool) -> Sets
        requires self_is { IsSets self.now }
        requires few { self.now.many ≡ false }
        requires place { place < 128 }
        ensures { result ≡ listing self.now.width (filter (λ x. not (differs (bit x place) value)) (listed self.now)) }
    {
        let mut kept = Sets::nothing(self.width);
        for index in 0..self.count {
            let number = self.at(index);
            let passes = bit_of(number, place) == value;
            kept.push_if(passes, number);
        }
        kept
    }

    /// The bits on which all listed numbers agree, where there is one.
    #[inline(always)]
    pub(crate) fn agreed_bits(&self) -> u128
        requires self_is { IsSets self.now }
        requires few { self.now.many ≡ false }
        requires some { 0 < self.now.count }
        ensures { result ≡ sets_mask self.now }
    {
        let first = self.at(0);
        let mut differing = 0;
        for place in 0..self.count {
            differing |= self.at(place) ^ first;
        }
        ones(self.width) - differing
    }
}
