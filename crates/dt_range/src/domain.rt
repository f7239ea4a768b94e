//! Range as a domain.
use crate::Range;
use crate::backward::{first_of, second_of, third_of};
use crate::forward::{is_all_used_single, table_of, value_of_ends};
use dt_bits::{Bv, Op, Width, bit_of, is_some_used, result_width};
use dt_domain::Domain;

impl Domain for Range {
    ghost use Rattle.dt_range.specs.Ops.{range_ops};
    ghost use Rattle.dt_range.specs.Laws.{range_laws, range_exact};

    ghost ops = { range_ops };

    ghost laws = { range_laws };

    ghost exact = { range_exact };

    #[inline(always)]
    fn full(width: Width) -> Range {
        Range::all(width)
    }

    #[inline(always)]
    fn one(value: Bv) -> Range {
        Range {
            lo: value.bits,
            hi: value.bits,
            width: value.width,
        }
    }

    #[inline(always)]
    fn width(&self) -> Width {
        self.width
    }

    #[inline(always)]
    fn holds(&self, value: u128) -> bool {
        self.lo <= value && value <= self.hi
    }

    #[inline(always)]
    fn is_empty(&self) -> bool {
        self.holds_none()
    }

    #[inline(always)]
    fn known_mask(&self) -> u128 {
        self.mask()
    }

    #[inline(always)]
    fn known_value(&self) -> u128 {
        self.lo & self.mask()
    }

    #[inline(always)]
    fn pick(&self) -> Option<u128> {
        if self.holds_none() {
            None
        } else {
            Some(self.lo)
        }
    }

    #[inline(always)]
    fn meet(&self, other: &Range) -> Range {
        self.common(other)
    }

    #[inline(always)]
    fn is_within(&self, other: &Range) -> bool {
        other.covers(self) || self.holds_none()
    }

    #[inline(always)]
    fn with_bit(&self, bit: u32, value: bool) -> Range {
        if self.holds_none() {
            return Range::nothing(self.width);
        }
        if self.knows_from(bit) {
            return if bit_of(self.lo, bit) == value {
                *self
            } else {
                Range::nothing(self.width)
            };
        }
        if self.is_highest_unknown(bit) {
            self.half(bit, value)
        } else {
            *self
        }
    }

    #[inline(always)]
    fn forward(op: Op, a: &Range, b: &Range, c: &Range) -> Range {
        if is_some_used(op, a.holds_none(), b.holds_none(), c.holds_none()) {
            return Range::nothing(result_width(op, a.width, b.width, c.width));
        }
        if is_all_used_single(op, a, b, c) {
            return value_of_ends(op, a, b, c);
        }
        table_of(op, a, b, c)
    }

    #[inline(always)]
    fn backward(op: Op, place: u32, outcome: &Range, a: &Range, b: &Range, c: &Range) -> Range {
        let used = is_some_used(op, a.holds_none(), b.holds_none(), c.holds_none());
        let none = outcome.holds_none() || used;
        match place {
            0 => if none {
                Range::nothing(a.width)
            } else {
                first_of(op, outcome, a, b, c)
            },
            1 => if none {
                Range::nothing(b.width)
            } else {
                second_of(op, outcome, a, b, c)
            },
            _ => if none {
                Range::nothing(c.width)
            } else {
                third_of(op, outcome, a, b, c)
            },
        }
    }
}
