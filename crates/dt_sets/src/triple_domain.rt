//! Triple as a domain: a Pair and Sets, part by part, and then normalised.
use crate::one_bit::{told_backward, told_forward};
use crate::partners::is_unlisted;
use crate::{Sets, Triple};
use dt_bits::{Bv, Op, Width, is_some_used};
use dt_domain::{Deciding, Domain};
use dt_known::Known;
use dt_pair::Pair;
use dt_range::Range;

impl Domain for Triple {
    ghost use Rattle.dt_sets.specs.TripleOps.{triple_ops};
    ghost use Rattle.dt_sets.specs.TripleLaws.{triple_laws, triple_exact};

    ghost ops = { triple_ops };

    ghost laws = { triple_laws };

    ghost exact = { triple_exact };

    #[inline(always)]
    fn full(width: Width) -> Triple {
        let Pair { known, range } = Pair::full(width);
        Triple {
            known,
            range,
            sets: Sets::full(width),
        }
    }

    #[inline(always)]
    fn one(value: Bv) -> Triple {
        let pair = Pair::one(value);
        let sets = Sets::one(value);
        Triple::reduced(&pair, &sets)
    }

    #[inline(always)]
    fn width(&self) -> Width {
        self.known.width
    }

    #[inline(always)]
    fn holds(&self, value: u128) -> bool {
        self.known.holds(value) && self.range.holds(value) && self.sets.holds(value)
    }

    #[inline(always)]
    fn is_empty(&self) -> bool {
        self.known.empty
    }

    #[inline(always)]
    fn known_mask(&self) -> u128 {
        self.known.mask
    }

    #[inline(always)]
    fn known_value(&self) -> u128 {
        self.known.value
    }

    #[inline(always)]
    fn pick(&self) -> Option<u128> {
        self.range.pick()
    }

    #[inline(always)]
    fn meet(&self, other: &Triple) -> Triple {
        let known = self.known.meet(&other.known);
        let range = self.range.meet(&other.range);
        let sets = self.sets.meet(&other.sets);
        Triple::normal(&known, &range, &sets)
    }

    #[inline(always)]
    fn with_bit(&self, bit: u32, value: bool) -> Triple {
        let known = self.known.with_bit(bit, value);
        let sets = self.sets.with_bit(bit, value);
        Triple::normal(&known, &self.range, &sets)
    }

    #[inline(always)]
    fn forward(op: Op, a: &Triple, b: &Triple, c: &Triple) -> Triple {
        let known = Known::forward(op, &a.known, &b.known, &c.known);
        let range = Range::forward(op, &a.range, &b.range, &c.range);
        let sets = Sets::forward(op, &a.sets, &b.sets, &c.sets);
        Triple::normal(&known, &range, &sets)
    }

    #[inline(always)]
    fn backward(
        op: Op,
        place: u32,
        outcome: &Triple,
        a: &Triple,
        b: &Triple,
        c: &Triple,
    ) -> Triple {
        let known = Known::backward(op, place, &outcome.known, &a.known, &b.known, &c.known);
        let range = Range::backward(op, place, &outcome.range, &a.range, &b.range, &c.range);
        let sets = Sets::backward(op, place, &outcome.sets, &a.sets, &b.sets, &c.sets);
        Triple::normal(&known, &range, &sets)
    }

    #[inline(always)]
    fn narrowed_forward(&self, op: Op, a: &Triple, b: &Triple, c: &Triple) -> Option<Triple> {
        if let Some(told) = told_forward(op, a, b, c) {
            return self.narrowed_to_bits(told);
        }
        if is_some_used(op, a.sets.many, b.sets.many, c.sets.many) {
            let known = Known::forward(op, &a.known, &b.known, &c.known);
            let range = Range::forward(op, &a.range, &b.range, &c.range);
            self.narrowed_by_parts(&known, &range)
        } else {
            self.narrowed_forward_listed(op, a, b, c)
        }
    }

    #[inline(always)]
    fn narrowed_backward(
        &self,
        op: Op,
        place: u32,
        outcome: &Triple,
        a: &Triple,
        b: &Triple,
        c: &Triple,
    ) -> Option<Triple> {
        if let Some(told) = told_backward(op, place, outcome, a, b, c) {
            return self.narrowed_to_bits(told);
        }
        if is_unlisted(op, &outcome.sets, &a.sets, &b.sets, &c.sets) {
            let known = Known::backward(op, place, &outcome.known, &a.known, &b.known, &c.known);
            let range = Range::backward(op, place, &outcome.range, &a.range, &b.range, &c.range);
            self.narrowed_by_parts(&known, &range)
        } else {
            self.narrowed_backward_listed(op, place, outcome, a, b, c)
        }
    }
}

impl Deciding for Triple {
    ghost use Rattle.dt_sets.specs.TripleLaws.{triple_decides};

    ghost decides = { triple_decides };
}
