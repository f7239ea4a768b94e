//! Steps between Triples of one bit: which of 0 and 1 each holds, and what an operator makes of them.
ghost use Rattle.std.specs.Prelude.{◌≡◌, IfSome, true, false};
ghost use Rattle.dt_domain.specs.Domain.{Fitting, FittingAt, IsNarrowed};
ghost use Rattle.dt_sets.specs.Triple.{IsTriple, triple_forward, triple_backward};
ghost use Rattle.dt_sets.specs.TripleOps.{triple_ops};
ghost use Rattle.dt_sets.specs.OneBit.{of_bits, zero_alone, holds_bit, both_hold, value_at, is_value, gives, some_gives, bits_forward, meets_at, bits_first, turned, bits_second};
ghost use Rattle.dt_sets.specs.OneBit.{table_of as bits_of};

use crate::Triple;
use crate::triple_normal::nothing;
use dt_bits::{Bv, Op, Width};
use dt_domain::Domain;

/// Which of the numbers 0 and 1 are held.
#[derive(Clone, Copy, Debug)]
pub struct Held {
    pub zero: bool,
    pub one: bool,
}

impl Held {
    /// What a Triple of one bit holds.
    #[inline(always)]
    pub fn of(triple: &Triple) -> Held
        requires triple { IsTriple triple.now }
        requires width { triple.now.known.width.0 ≡ 1 }
        ensures { triple.now ≡ of_bits result }
    {
        let some = !triple.known.empty;
        Held {
            zero: some & (triple.known.value == 0),
            one: some & (triple.known.value == triple.known.mask),
        }
    }

    /// The Triple of one bit that holds these.
    #[inline(never)]
    pub fn triple(self) -> Triple
        ensures { result ≡ of_bits self }
    {
        let width = Width(1);
        match (self.zero, self.one) {
            (true, true) => Triple::full(width),
            (true, false) => Triple::one(Bv { width, bits: 0 }),
            (false, true) => Triple::one(Bv { width, bits: 1 }),
            (false, false) => nothing(width),
        }
    }

    #[inline(always)]
    fn holds(self, value: bool) -> bool
        ensures { result ≡ holds_bit self value }
    {
        if value { self.one } else { self.zero }
    }

    /// What both hold.
    #[inline(always)]
    fn both(self, other: Held) -> Held
        ensures { result ≡ both_hold self other }
    {
        Held {
            zero: self.zero & other.zero,
            one: self.one & other.one,
        }
    }
}

/// An operator's values at 0 and 0, at 0 and 1, at 1 and 0, and at 1 and 1, and whether it has two operands.
#[derive(Clone, Copy, Debug)]
pub struct Table {
    pub at_00: bool,
    pub at_01: bool,
    pub at_10: bool,
    pub at_11: bool,
    pub has_second: bool,
}

/// The values on bits, of the operators that steps of one bit are mostly of.
#[inline(always)]
fn table_of(op: Op) -> Option<Table>
    ensures { result ≡ bits_of op }
{
    let table = |at_00: bool, at_01: bool, at_10: bool, at_11: bool, has_second: bool| Table {
        at_00,
        at_01,
        at_10,
        at_11,
        has_second,
    };
    match op {
        Op::Not => Some(table(true, true, false, false, false)),
        Op::And => Some(table(false, false, false, true, true)),
        Op::Or => Some(table(false, true, true, true, true)),
        Op::Xor => Some(table(false, true, true, false, true)),
        Op::Eq => Some(table(true, false, false, true, true)),
        _ => None,
    }
}

impl Table {
    #[inline(always)]
    fn at(self, x: bool, y: bool) -> bool
        ensures { result ≡ value_at self x y }
    {
        if x {
            if y { self.at_11 } else { self.at_10 }
        } else if y {
            self.at_01
        } else {
            self.at_00
        }
    }

    #[inline(always)]
    fn gives(self, a: Held, b: Held, value: bool, x: bool, y: bool) -> bool
        ensures { result ≡ gives self a b value x y }
    {
        let at = self.at(x, y);
        let is = if value { at } else { !at };
        a.holds(x) & b.holds(y) & is
    }

    #[inline(always)]
    fn some_gives(self, a: Held, b: Held, value: bool) -> bool
        ensures { result ≡ some_gives self a b value }
    {
        self.gives(a, b, value, false, false)
            | self.gives(a, b, value, false, true)
            | self.gives(a, b, value, true, false)
            | self.gives(a, b, value, true, true)
    }

    /// The values of what is held.
    #[inline(always)]
    fn forward(self, a: Held, b: Held) -> Held
        ensures { result ≡ bits_forward self a b }
    {
        Held {
            zero: self.some_gives(a, b, false),
            one: self.some_gives(a, b, true),
        }
    }

    #[inline(always)]
    fn meets_at(self, outcome: Held, b: Held, x: bool, y: bool) -> bool
        ensures { result ≡ meets_at self outcome b x y }
    {
        b.holds(y) & outcome.holds(self.at(x, y))
    }

    /// What of the first operand has a partner.
    #[inline(always)]
    fn first(self, outcome: Held, a: Held, b: Held) -> Held
        ensures { result ≡ bits_first self outcome a b }
    {
        Held {
            zero: a.zero
                & (self.meets_at(outcome, b, false, false)
                    | self.meets_at(outcome, b, false, true)),
            one: a.one
                & (self.meets_at(outcome, b, true, false) | self.meets_at(outcome, b, true, true)),
        }
    }

    /// What of the second operand has one.
    #[inline(always)]
    fn second(self, outcome: Held, a: Held, b: Held) -> Held
        ensures { result ≡ bits_second self outcome a b }
    {
        let turned = Table {
            at_01: self.at_10,
            at_10: self.at_01,
            ..self
        };
        turned.first(outcome, b, a)
    }

    /// What the second operand may be: 0 alone where the operator doesn't use it.
    #[inline(always)]
    fn beside(self, b: &Triple) -> Held
        requires b { IsTriple b.now }
        requires width { self.has_second ≡ true → b.now.known.width.0 ≡ 1 }
        ensures used { self.has_second ≡ true → b.now ≡ of_bits result }
        ensures alone { self.has_second ≡ false → result ≡ zero_alone }
    {
        if self.has_second {
            Held::of(b)
        } else {
            Held {
                zero: true,
                one: false,
            }
        }
    }
}

/// What `forward` gives of one bit, where it is quickly told.
#[inline(always)]
pub fn told_forward(op: Op, a: &Triple, b: &Triple, c: &Triple) -> Option<Held>
    requires { Fitting triple_ops op a.now b.now c.now }
    ensures { IfSome result (λ held. triple_forward op a.now b.now c.now ≡ of_bits held) }
{
    if a.known.width.0 != 1 {
        return None;
    }
    let table = table_of(op)?;
    Some(table.forward(Held::of(a), table.beside(b)))
}

/// What `backward` gives of one bit, where it is quickly told.
#[inline(always)]
pub fn told_backward(
    op: Op,
    place: u32,
    outcome: &Triple,
    a: &Triple,
    b: &Triple,
    c: &Triple,
) -> Option<Held>
    requires { FittingAt triple_ops op place outcome.now a.now b.now c.now }
    ensures { IfSome result (λ held. triple_backward op place outcome.now a.now b.now c.now ≡ of_bits held) }
{
    if a.known.width.0 != 1 {
        return None;
    }
    let table = table_of(op)?;
    let (result, first, second) = (Held::of(outcome), Held::of(a), table.beside(b));
    Some(if place == 0 {
        table.first(result, first, second)
    } else {
        table.second(result, first, second)
    })
}

impl Triple {
    /// The meet with what one bit may be, or None, which says that this is the Triple itself.
    #[inline(always)]
    pub(crate) fn narrowed_to_bits(&self, told: Held) -> Option<Triple>
        requires self_is { IsTriple self.now }
        requires width { self.now.known.width.0 ≡ 1 }
        ensures { IsNarrowed triple_ops self.now (of_bits told) result }
    {
        let own = Held::of(self);
        let kept = own.both(told);
        if kept.zero == own.zero && kept.one == own.one {
            None
        } else {
            Some(kept.triple())
        }
    }
}
