//! The trait of domains. A domain is a set of numbers of one width that is known in part: which
//! of its bits are known, a range, or both. Search and checker see a domain through this trait
//! alone.
//!
//! Proved: `Domain` carries one function on plain data for each call (`ops`), each call answers
//! exactly what its function does, and the laws of these functions (`laws`) hold at every type
//! that implements the trait. `==` tells two values apart exactly where their data differ
//! (`exact`). `is_within` holds exactly where the meet with the other is the domain itself, and
//! `narrowed_forward` and `narrowed_backward` give the meet with what `forward` and `backward` give;
//! a type may have quicker bodies for these three. A type that implements `Deciding` also keeps its
//! law (`decides`).
//! Only tested: nothing.
#![tactic(auto)]

ghost use Rattle.std.specs.Prelude.{◌≡◌, ◌<◌, ◌^◌, ◌↔◌, IsTrue};
ghost use Rattle.dt_bits.specs.Bits.{IsWidth, IsValue};
ghost use Rattle.dt_domain.specs.Domain.{DomainOps, DomainLaws, DecidingLaws, IsExact, Fitting, FittingAt, IsNarrowed, bits_of, operand, result_width};

use dt_bits::{Bv, Op, Width};

/// A set of numbers of one width, of 1 to 128 bits, that is known in part.
///
/// It may hold more numbers than those that it stands for, and never fewer. The laws stand in
/// `specs/Domain.antt`, each with a name that says it.
pub trait Domain: Copy + Eq {
    /// What each call answers, as a function on plain data, and which data are domains.
    ghost ops: { DomainOps Self };

    /// The domain of all numbers of the width.
    fn full(width: Width) -> Self
        requires { IsWidth width.0 }
        ensures { result ≡ ops.full width };

    /// The domain of one number.
    fn one(value: Bv) -> Self
        requires { IsValue value }
        ensures { result ≡ ops.one value };

    /// The width of the numbers.
    fn width(&self) -> Width
        requires { ops.IsDomain self.now }
        ensures { result ≡ ops.width self.now };

    /// Whether the number is held. None of 2^width or more is.
    fn holds(&self, value: u128) -> bool
        requires { ops.IsDomain self.now }
        ensures { result ≡ ops.holds self.now value };

    /// Whether no number is held.
    fn is_empty(&self) -> bool
        requires { ops.IsDomain self.now }
        ensures { result ≡ ops.is_empty self.now };

    /// The bits that all held numbers are known to share; 0 for an empty domain.
    fn known_mask(&self) -> u128
        requires { ops.IsDomain self.now }
        ensures { result ≡ ops.known_mask self.now };

    /// The values of the known bits, and 0 elsewhere.
    fn known_value(&self) -> u128
        requires { ops.IsDomain self.now }
        ensures { result ≡ ops.known_value self.now };

    /// A held number, and none exactly where the domain is empty.
    fn pick(&self) -> Option<u128>
        requires { ops.IsDomain self.now }
        ensures { result ≡ ops.pick self.now };

    /// A domain that holds what both hold.
    fn meet(&self, other: &Self) -> Self
        requires self_is { ops.IsDomain self.now }
        requires other_is { ops.IsDomain other.now }
        requires widths { ops.width self.now ≡ ops.width other.now }
        ensures { result ≡ ops.meet self.now other.now };

    /// Whether the meet with the other is this domain itself: the other says nothing that this one
    /// doesn't say.
    #[inline(always)]
    fn is_within(&self, other: &Self) -> bool
        requires self_is { ops.IsDomain self.now }
        requires other_is { ops.IsDomain other.now }
        requires widths { ops.width self.now ≡ ops.width other.now }
        ensures { IsTrue result ↔ (ops.meet self.now other.now ≡ self.now) }
    {
        self.meet(other) == *self
    }

    /// A domain that holds the held numbers whose bit has this value.
    fn with_bit(&self, bit: u32, value: bool) -> Self
        requires self_is { ops.IsDomain self.now }
        requires within { bit < bits_of ops self.now }
        ensures { result ≡ ops.with_bit self.now bit value };

    /// A domain that holds the operator's values of the held operands. Operands that the operator
    /// doesn't use are ignored.
    fn forward(op: Op, a: &Self, b: &Self, c: &Self) -> Self
        requires { Fitting ops op a.now b.now c.now }
        ensures { result ≡ ops.forward op a.now b.now c.now };

    /// A domain that holds the operand at `place` (0, 1 or 2) wherever held operands give a number
    /// that `outcome` holds.
    fn backward(op: Op, place: u32, outcome: &Self, a: &Self, b: &Self, c: &Self) -> Self
        requires { FittingAt ops op place outcome.now a.now b.now c.now }
        ensures { result ≡ ops.backward op place outcome.now a.now b.now c.now };

    /// The meet with what `forward` gives, or None, which says that this is the domain itself.
    #[inline(always)]
    fn narrowed_forward(&self, op: Op, a: &Self, b: &Self, c: &Self) -> Option<Self>
        requires self_is { ops.IsDomain self.now }
        requires fitting { Fitting ops op a.now b.now c.now }
        requires width { ops.width self.now ≡ result_width ops op a.now b.now c.now }
        ensures { IsNarrowed ops self.now (ops.forward op a.now b.now c.now) result }
    {
        let from = Self::forward(op, a, b, c);
        if self.is_within(&from) {
            None
        } else {
            Some(self.meet(&from))
        }
    }

    /// The meet with what `backward` gives, or None, which says that this is the domain itself.
    #[inline(always)]
    fn narrowed_backward(
        &self,
        op: Op,
        place: u32,
        outcome: &Self,
        a: &Self,
        b: &Self,
        c: &Self,
    ) -> Option<Self>
        requires self_is { ops.IsDomain self.now }
        requires fitting { FittingAt ops op place outcome.now a.now b.now c.now }
        requires width { ops.width self.now ≡ ops.width (operand place a.now b.now c.now) }
        ensures { IsNarrowed ops self.now (ops.backward op place outcome.now a.now b.now c.now) result }
    {
        let from = Self::backward(op, place, outcome, a, b, c);
        if self.is_within(&from) {
            None
        } else {
            Some(self.meet(&from))
        }
    }

    /// The laws of these functions.
    ghost laws: { DomainLaws ops };

    /// `==` tells two values apart exactly where their data differ.
    ghost exact: { IsExact Self.eq };
}

/// A domain in which a bit that is set becomes known.
pub trait Deciding: Domain {
    /// After `with_bit` the domain is empty, or it knows that bit and all that it knew before.
    ghost decides: { DecidingLaws Self.ops };
}
