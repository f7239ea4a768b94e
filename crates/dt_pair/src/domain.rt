//! Pair as a domain: part by part, and then normalised.
use crate::Pair;
use dt_bits::{Bv, Op, Width};
use dt_domain::{Deciding, Domain};
use dt_known::Known;
use dt_range::Range;

impl Domain for Pair {
    ghost use Rattle.dt_pair.specs.Ops.{pair_ops};
    ghost use Rattle.dt_pair.specs.Laws.{pair_laws, pair_exact};

    ghost ops = { pair_ops };

    ghost laws = { pair_laws };

    ghost exact = { pair_exact };

    #[inline(always)]
    fn full(width: Width) -> Pair {
        Pair {
            known: Known::full(width),
            range: Range::full(width),
        }
    }

    #[inline(always)]
    fn one(value: Bv) -> Pair {
        Pair {
            known: Known::one(value),
            range: Range::one(value),
        }
    }

    #[inline(always)]
    fn width(&self) -> Width {
        self.known.width
    }

    #[inline(always)]
    fn holds(&self, value: u128) -> bool {
        self.known.holds(value) && self.range.holds(value)
    }

    #[inline(always)]
    fn is_empty(&self) -> bool {
        self.known.empty
    }

    #[inline(always)]
    fn known_mask(&self) -> u128 {
        self.known.mask
    }

    #[inline(always)]
    fn known_value(&self) -> u128 {
        self.known.value
    }

    #[inline(always)]
    fn pick(&self) -> Option<u128> {
        self.range.pick()
    }

    #[inline(always)]
    fn meet(&self, other: &Pair) -> Pair {
        Pair::normal(
            &self.known.meet(&other.known),
            &self.range.meet(&other.range),
        )
    }

    #[inline(always)]
    fn is_within(&self, other: &Pair) -> bool {
        self.known.is_within(&other.known) && self.range.is_within(&other.range)
    }

    #[inline(always)]
    fn with_bit(&self, bit: u32, value: bool) -> Pair {
        Pair::normal(&self.known.with_bit(bit, value), &self.range)
    }

    #[inline(always)]
    fn forward(op: Op, a: &Pair, b: &Pair, c: &Pair) -> Pair {
        let known = Known::forward(op, &a.known, &b.known, &c.known);
        let range = Range::forward(op, &a.range, &b.range, &c.range);
        Pair::normal(&known, &range)
    }

    #[inline(always)]
    fn backward(op: Op, place: u32, outcome: &Pair, a: &Pair, b: &Pair, c: &Pair) -> Pair {
        let known = Known::backward(op, place, &outcome.known, &a.known, &b.known, &c.known);
        let range = Range::backward(op, place, &outcome.range, &a.range, &b.range, &c.range);
        Pair::normal(&known, &range)
    }

    #[inline(always)]
    fn narrowed_forward(&self, op: Op, a: &Pair, b: &Pair, c: &Pair) -> Option<Pair> {
        let known = Known::forward(op, &a.known, &b.known, &c.known);
        let range = Range::forward(op, &a.range, &b.range, &c.range);
        self.narrowed(&known, &range)
    }

    #[inline(always)]
    fn narrowed_backward(
        &self,
        op: Op,
        place: u32,
        outcome: &Pair,
        a: &Pair,
        b: &Pair,
        c: &Pair,
    ) -> Option<Pair> {
        let known = Known::backward(op, place, &outcome.known, &a.known, &b.known, &c.known);
        let range = Range::backward(op, place, &outcome.range, &a.range, &b.range, &c.range);
        self.narrowed(&known, &range)
    }
}

impl Deciding for Pair {
    ghost use Rattle.dt_pair.specs.Laws.{pair_decides};

    ghost decides = { pair_decides };
}
