//! Sets as a domain.
use crate::Sets;
use crate::partners::backward_to;
use crate::selections::{few_forward, is_used_empty};
use dt_bits::{Bv, Op, Width, is_some_used, ones, result_width};
use dt_domain::Domain;

impl Domain for Sets {
    ghost use Rattle.dt_sets.specs.Ops.{sets_ops};
    ghost use Rattle.dt_sets.specs.Laws.{sets_laws, sets_exact};

    ghost ops = { sets_ops };

    ghost laws = { sets_laws };

    ghost exact = { sets_exact };

    #[inline(always)]
    fn full(width: Width) -> Sets {
        Sets::all(width)
    }

    #[inline(always)]
    fn one(value: Bv) -> Sets {
        Sets::single(value)
    }

    #[inline(always)]
    fn width(&self) -> Width {
        self.width
    }

    #[inline(always)]
    fn holds(&self, value: u128) -> bool {
        if self.many {
            value <= ones(self.width)
        } else {
            self.lists(value)
        }
    }

    #[inline(always)]
    fn is_empty(&self) -> bool {
        !self.many && self.count == 0
    }

    #[inline(always)]
    fn known_mask(&self) -> u128 {
        if self.count == 0 {
            0
        } else {
            self.agreed_bits()
        }
    }

    #[inline(always)]
    fn known_value(&self) -> u128 {
        if self.count == 0 {
            0
        } else {
            self.at(0) & self.agreed_bits()
        }
    }

    #[inline(always)]
    fn pick(&self) -> Option<u128> {
        if self.many {
            Some(0)
        } else if self.count == 0 {
            None
        } else {
            Some(self.at(0))
        }
    }

    #[inline(always)]
    fn meet(&self, other: &Sets) -> Sets {
        if self.many {
            *other
        } else {
            self.held_by(other)
        }
    }

    #[inline(always)]
    fn with_bit(&self, bit: u32, value: bool) -> Sets {
        if self.many {
            *self
        } else {
            self.with_bit_at(bit, value)
        }
    }

    #[inline(always)]
    fn forward(op: Op, a: &Sets, b: &Sets, c: &Sets) -> Sets {
        let width = result_width(op, a.width, b.width, c.width);
        if is_used_empty(op, a, b, c) {
            Sets::nothing(width)
        } else if is_some_used(op, a.many, b.many, c.many) {
            Sets::all(width)
        } else {
            few_forward(op, a, b, c)
        }
    }

    #[inline(always)]
    fn backward(op: Op, place: u32, outcome: &Sets, a: &Sets, b: &Sets, c: &Sets) -> Sets {
        match place {
            0 => backward_to(op, place, outcome, a, a, b, c),
            1 => backward_to(op, place, outcome, b, a, b, c),
            _ => backward_to(op, place, outcome, c, a, b, c),
        }
    }
}
