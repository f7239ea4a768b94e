//! Loops of calls over operands that change from call to call.
ghost use Rattle.std.specs.Prelude.{◌≡◌};
ghost use Rattle.dt_domain_bench.specs.Case.{IsCase, AreGiven};

use crate::cases::Case;
use crate::made::Made;
use dt_bits::arity;

/// An odd number, whose multiples have their bits well mixed.
const STEP: u128 = 0x9e37_79b9_7f4a_7c15_f39c_c060_5ced_c835;

/// The operands of a call, and the result of a call backward.
#[derive(Clone, Copy, Debug)]
pub struct Given<D> {
    pub a: D,
    pub b: D,
    pub c: D,
    pub r: D,
}

/// Domains of the case's widths, made of a seed.
#[inline(always)]
fn operands<D: Made>(case: Case, seed: u128) -> Given<D>
    requires { IsCase case }
    ensures { AreGiven D.ops case result }
{
    Given {
        a: D::made(seed, case.a),
        b: D::made(seed ^ seed << 41, case.b),
        c: D::made(seed ^ seed << 83, case.c),
        r: D::made(seed ^ seed << 59, case.r),
    }
}

/// What a loop calls.
#[derive(Clone, Copy, Debug)]
pub enum Call {
    Nothing,
    Forward,
    Backward { place: u32 },
    Meet,
    Within,
    WithBit,
}

#[inline(always)]
fn backward<D: Made>(case: Case, place: u32, given: &Given<D>) -> u128
    requires case { IsCase case }
    requires given { AreGiven D.ops case given.now }
{
    if place >= arity(case.op) {
        return 0;
    }
    D::backward(case.op, place, &given.r, &given.a, &given.b, &given.c).mixed()
}

#[inline(always)]
fn meet<D: Made>(case: Case, given: &Given<D>) -> u128
    requires case { IsCase case }
    requires given { AreGiven D.ops case given.now }
{
    if case.a != case.b {
        return 0;
    }
    given.a.meet(&given.b).mixed()
}

#[inline(always)]
fn within<D: Made>(case: Case, given: &Given<D>) -> u128
    requires case { IsCase case }
    requires given { AreGiven D.ops case given.now }
{
    if case.a != case.b {
        return 0;
    }
    given.a.is_within(&given.b) as u128
}

#[inline(always)]
fn with_bit<D: Made>(case: Case, seed: u128, given: &Given<D>) -> u128
    requires case { IsCase case }
    requires given { AreGiven D.ops case given.now }
{
    let bit = (seed % 128) as u32;
    let bit = if bit < case.a.0 { bit } else { 0 };
    given.a.with_bit(bit, seed & 256 == 0).mixed()
}

/// The answer of a call as one word, and 0 of none.
#[inline(always)]
fn answer<D: Made>(call: Call, case: Case, seed: u128, given: &Given<D>) -> u128
    requires case { IsCase case }
    requires given { AreGiven D.ops case given.now }
{
    match call {
        Call::Nothing => 0,
        Call::Forward => D::forward(case.op, &given.a, &given.b, &given.c).mixed(),
        Call::Backward { place } => backward(case, place, given),
        Call::Meet => meet(case, given),
        Call::Within => within(case, given),
        Call::WithBit => with_bit(case, seed, given),
    }
}

/// Makes the calls, and mixes their operands and answers into one word.
#[inline(never)]
pub fn calls<D: Made>(call: Call, case: Case, rounds: u32) -> u128
    requires { IsCase case }
{
    let mut seed: u128 = 1;
    let mut mixed = 0;
    for _ in 0..rounds {
        seed = seed.wrapping_add(STEP);
        let given = operands::<D>(case, seed);
        mixed ^= given.a.mixed() ^ given.b.mixed() ^ given.c.mixed() ^ given.r.mixed();
        mixed ^= answer(call, case, seed, &given);
    }
    mixed
}
