//! A step into a Triple: what known bits and a range say where the values themselves say nothing.
ghost use Rattle.std.specs.Prelude.{◌≡◌, false, true};
ghost use Rattle.dt_domain.specs.Domain.{Fitting, FittingAt, IsNarrowed, operand, result_width};
ghost use Rattle.dt_pair.specs.Pair.{AreParts, normal};
ghost use Rattle.dt_sets.specs.Sets.{sets_full};
ghost use Rattle.dt_sets.specs.Triple.{IsTriple, reduced, triple_meet, triple_forward, triple_backward};
ghost use Rattle.dt_sets.specs.TripleOps.{triple_ops};

use crate::Triple;
use dt_bits::Op;
use dt_domain::Domain;
use dt_known::Known;
use dt_pair::Pair;
use dt_range::Range;

impl Triple {
    /// The meet with the numbers that known bits and a range hold. It isn't inlined, since most steps
    /// narrow nothing, and those are to hand on nothing of a Triple's size.
    #[inline(never)]
    fn met_with_parts(&self, known: &Known, range: &Range) -> Triple
        requires self_is { IsTriple self.now }
        requires parts { AreParts known.now range.now }
        requires widths { self.now.known.width ≡ known.now.width }
        ensures { result ≡ triple_meet self.now (reduced (normal known.now range.now) (sets_full known.now.width)) }
    {
        let pair = Pair::normal(&self.known.meet(known), &self.range.meet(range));
        Triple::reduced(&pair, &self.sets)
    }

    /// The meet with the numbers that known bits and a range hold, or None, which says that this is
    /// the Triple itself. The parts are compared as they are, so most calls normalise nothing.
    #[inline(always)]
    pub(crate) fn narrowed_by_parts(&self, known: &Known, range: &Range) -> Option<Triple>
        requires self_is { IsTriple self.now }
        requires parts { AreParts known.now range.now }
        requires widths { self.now.known.width ≡ known.now.width }
        ensures { IsNarrowed triple_ops self.now (reduced (normal known.now range.now) (sets_full known.now.width)) result }
    {
        if self.known.is_within(known) && self.range.is_within(range) {
            return None;
        }
        Some(self.met_with_parts(known, range))
    }

    /// The meet with another, or None, which says that this is the Triple itself.
    #[inline(always)]
    pub(crate) fn narrowed_to(&self, other: &Triple) -> Option<Triple>
        requires self_is { IsTriple self.now }
        requires other_is { IsTriple other.now }
        requires widths { self.now.known.width ≡ other.now.known.width }
        ensures { IsNarrowed triple_ops self.now other.now result }
    {
        let met = self.meet(other);
        if met == *self { None } else { Some(met) }
    }

    /// The meet with what `forward` gives where each used operand lists its numbers.
    pub(crate) fn narrowed_forward_listed(
        &self,
        op: Op,
        a: &Triple,
        b: &Triple,
        c: &Triple,
    ) -> Option<Triple>
        requires self_is { IsTriple self.now }
        requires fitting { Fitting triple_ops op a.now b.now c.now }
        requires width { self.now.known.width ≡ result_width triple_ops op a.now b.now c.now }
        ensures { IsNarrowed triple_ops self.now (triple_forward op a.now b.now c.now) result }
    {
        self.narrowed_to(&Triple::forward(op, a, b, c))
    }

    /// The meet with what `backward` gives where the outcome and each used operand list their numbers.
    pub(crate) fn narrowed_backward_listed(
        &self,
        op: Op,
        place: u32,
        outcome: &Triple,
        a: &Triple,
        b: &Triple,
        c: &Triple,
    ) -> Option<Triple>
        requires self_is { IsTriple self.now }
        requires fitting { FittingAt triple_ops op place outcome.now a.now b.now c.now }
        requires width { self.now.known.width ≡ (operand place a.now b.now c.now).known.width }
        ensures { IsNarrowed triple_ops self.now (triple_backward op place outcome.now a.now b.now c.now) result }
    {
        self.narrowed_to(&Triple::backward(op, place, outcome, a, b, c))
    }
}
