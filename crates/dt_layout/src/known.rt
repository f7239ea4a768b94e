// What is known of numbers, bit by bit.
ghost use Rattle.std.specs.Prelude.{◌<◌};

use dt_bits::low_ones;

/// What is known of a number: the bits of the mask, which have these values.
#[derive(Clone, Copy)]
pub struct Known {
    pub mask: u128,
    pub bits: u128,
}

/// The number whose lowest bits are 1, 128 of them where more are asked for.
pub fn low(count: u32) -> u128 {
    if count < 128 {
        low_ones(count)
    } else {
        u128::MAX
    }
}

/// The bits moved up.
pub fn up(bits: u128, by: u32) -> u128 {
    if by < 128 { bits << by } else { 0 }
}

/// The bits moved down.
pub fn down(bits: u128, by: u32) -> u128 {
    if by < 128 { bits >> by } else { 0 }
}

impl Known {
    /// Nothing is known.
    pub fn nothing() -> Known {
        Known { mask: 0, bits: 0 }
    }

    /// These bits are known.
    pub fn of(mask: u128, bits: u128) -> Known {
        Known {
            mask,
            bits: bits & mask,
        }
    }

    /// One bit is known.
    pub fn truth(holds: bool) -> Known {
        Known {
            mask: 1,
            bits: if holds { 1 } else { 0 },
        }
    }

    /// Whether all these bits are known.
    pub fn covers(&self, mask: u128) -> bool {
        mask & !self.mask == 0
    }

    /// Whether a bit that is known in both differs.
    pub fn disagrees(&self, other: &Known) -> bool {
        (self.bits ^ other.bits) & self.mask & other.mask != 0
    }

    /// What both know together.
    pub fn with(&self, other: &Known) -> Known {
        Known {
            mask: self.mask | other.mask,
            bits: self.bits | other.bits,
        }
    }

    /// The number whose unknown bits are these.
    pub fn filled(&self, free: u128) -> u128 {
        self.bits | (free & !self.mask)
    }

    /// The largest number, where the bits of `all` are those that it may have.
    pub fn most(&self, all: u128) -> u128 {
        self.filled(all)
    }
}
