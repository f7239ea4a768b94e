//! Listed numbers, one by one.
ghost use Rattle.std.specs.Prelude.{◌≡◌, ◌<◌, ◌++◌, ◌∷◌, [], false, slice_index, slice_set, if◌then◌else◌};
ghost use Rattle.dt_bits.specs.Bits.{IsValue};
ghost use Rattle.dt_sets.specs.Lists.{has};
ghost use Rattle.dt_sets.specs.Sets.{IsListing, IsSets, listed, listing, everything};
ghost use Rattle.dt_sets.specs.Forward.{valued};

use crate::Sets;
use dt_bits::{Bv, Width};

impl Sets {
    /// The Sets that list no number.
    #[inline(always)]
    pub(crate) fn nothing(width: Width) -> Sets
        ensures { result ≡ listing width [] }
    {
        Sets {
            width,
            many: false,
            count: 0,
            numbers: [0; 8],
        }
    }

    /// The Sets of all numbers, of which none is listed.
    #[inline(always)]
    pub(crate) fn everything(width: Width) -> Sets
        ensures { result ≡ everything width }
    {
        Sets {
            width,
            many: true,
            count: 0,
            numbers: [0; 8],
        }
    }

    /// The Sets that list one number.
    #[inline(always)]
    pub(crate) fn single(value: Bv) -> Sets
        ensures { result ≡ listing value.width (value.bits ∷ []) }
    {
        Sets {
            width: value.width,
            many: false,
            count: 1,
            numbers: [value.bits, 0, 0, 0, 0, 0, 0, 0],
        }
    }

    /// The listed number at a place.
    #[inline(always)]
    pub(crate) fn at(&self, place: u32) -> u128
        requires form { IsListing self.now }
        requires place { place < self.now.count }
        ensures { result ≡ slice_index (listed self.now) place }
    {
        self.numbers[place as usize]
    }

    /// The listed number at a place, as a value.
    #[inline(always)]
    pub(crate) fn value_at(&self, place: u32) -> Bv
        requires self_is { IsSets self.now }
        requires few { self.now.many ≡ false }
        requires place { place < self.now.count }
        ensures is { result ≡ valued self.now.width (slice_index (listed self.now) place) }
        ensures valid { IsValue result }
    {
        Bv {
            width: self.width,
            bits: self.at(place),
        }
    }

    /// Writes over the listed number at a place.
    #[inline(always)]
    pub(crate) fn put(&mut self, place: u32, number: u128)
        requires form { IsListing self.old }
        requires place { place < self.old.count }
        ensures { self.new ≡ listing self.old.width (slice_set (listed self.old) place number) }
    {
        self.numbers[place as usize] = number;
    }

    /// Lists one more number, behind the others.
    #[inline(always)]
    pub(crate) fn push(&mut self, number: u128)
        requires form { IsListing self.old }
        requires room { self.old.count < 8 }
        ensures { self.new ≡ listing self.old.width (listed self.old ++ number ∷ []) }
    {
        self.numbers[self.count as usize] = number;
        self.count += 1;
    }

    /// Lists one more number, behind the others, where it passes a test.
    #[inline(always)]
    pub(crate) fn push_if(&mut self, passes: bool, number: u128)
        requires form { IsListing self.old }
        requires room { self.old.count < 8 }
        ensures { self.new ≡ listing self.old.width (listed self.old ++ (if passes then number ∷ [] else [])) }
    {
        if passes {
            self.push(number);
        }
    }

    /// Whether the number is listed.
    #[inline(always)]
    pub(crate) fn lists(&self, number: u128) -> bool
        requires { IsListing self.now }
        ensures { result ≡ has (listed self.now) number }
    {
        for place in 0..self.count {
            if self.at(place) == number {
                return true;
            }
        }
        false
    }
}
