//! Known as a domain.
use crate::Known;
use crate::backward::{first_of, second_of, third_of};
use crate::forward::table_of;
use dt_bits::{Bv, Op, Width, is_some_used, ones, result_width};
use dt_domain::{Deciding, Domain};

impl Domain for Known {
    ghost use Rattle.dt_known.specs.Ops.{known_ops};
    ghost use Rattle.dt_known.specs.Laws.{known_laws, known_exact};

    ghost ops = { known_ops };

    ghost laws = { known_laws };

    ghost exact = { known_exact };

    #[inline(always)]
    fn full(width: Width) -> Known {
        Known::of_words(0, 0, width)
    }

    #[inline(always)]
    fn one(value: Bv) -> Known {
        Known::of_words(ones(value.width), value.bits, value.width)
    }

    #[inline(always)]
    fn width(&self) -> Width {
        self.width
    }

    #[inline(always)]
    fn holds(&self, value: u128) -> bool {
        !self.empty && value <= ones(self.width) && value & self.mask == self.value
    }

    #[inline(always)]
    fn is_empty(&self) -> bool {
        self.empty
    }

    #[inline(always)]
    fn known_mask(&self) -> u128 {
        self.mask
    }

    #[inline(always)]
    fn known_value(&self) -> u128 {
        self.value
    }

    #[inline(always)]
    fn pick(&self) -> Option<u128> {
        if self.empty { None } else { Some(self.value) }
    }

    #[tactic(auto, using(crate::proofs::Words::meet_words))]
    #[inline(always)]
    fn meet(&self, other: &Known) -> Known {
        if self.empty || other.empty || self.is_apart(other) {
            return Known::nothing(self.width);
        }
        Known::of_words(self.mask | other.mask, self.value | other.value, self.width)
    }

    #[inline(always)]
    fn is_within(&self, other: &Known) -> bool {
        if self.empty {
            return true;
        }
        !other.empty && self.knows_all_of(other)
    }

    #[tactic(auto, using(crate::specs::Laws::Meets::single_is))]
    #[inline(always)]
    fn with_bit(&self, bit: u32, value: bool) -> Known {
        self.meet(&Known::single_bit(self.width, bit, value))
    }

    #[inline(always)]
    fn forward(op: Op, a: &Known, b: &Known, c: &Known) -> Known {
        if is_some_used(op, a.empty, b.empty, c.empty) {
            return Known::nothing(result_width(op, a.width, b.width, c.width));
        }
        table_of(op, a, b, c)
    }

    #[inline(always)]
    fn backward(op: Op, place: u32, outcome: &Known, a: &Known, b: &Known, c: &Known) -> Known {
        let none = outcome.empty || is_some_used(op, a.empty, b.empty, c.empty);
        match place {
            0 => if none {
                Known::nothing(a.width)
            } else {
                first_of(op, outcome, a, b, c)
            },
            1 => if none {
                Known::nothing(b.width)
            } else {
                second_of(op, outcome, a, b, c)
            },
            _ => if none {
                Known::nothing(c.width)
            } else {
                third_of(op, outcome, a, b, c)
            },
        }
    }
}

impl Deciding for Known {
    ghost use Rattle.dt_known.specs.Laws.{known_decides};

    ghost decides = { known_decides };
}
