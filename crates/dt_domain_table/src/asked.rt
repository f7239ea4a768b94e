//! A call on the domains of a line, where its conditions hold.
ghost use Rattle.std.specs.Prelude.{◌≡◌, ◌<◌, IfSome};
ghost use Rattle.std.specs.Option.{ForSome};
ghost use Rattle.dt_bits.specs.Ops.{IsOp};
ghost use Rattle.dt_domain_table.specs.Cases.{IsCall, AreDomains};

use crate::call::Call;
use dt_bits::{Op, arity, fits};
use dt_domain::Domain;
use std::io;

/// A domain that stands in a line as some numbers.
pub trait Written: Domain {
    /// The domain at a place of a line: 0 to 2 are the operands, and 3 is the result.
    fn read(numbers: &[u128], place: usize) -> Option<Self>
        requires { place < 4 }
        ensures { IfSome result Self.ops.IsDomain };

    /// Prints it as it stands in a line.
    fn print(&self, rt: &HostRuntime) -> io::Result<()>;
}

/// The operands and the result.
#[derive(Clone, Copy, Debug)]
pub struct Given<D> {
    pub a: D,
    pub b: D,
    pub c: D,
    pub outcome: D,
}

fn forward<D: Domain>(op: Op, given: &Given<D>) -> Option<D>
    requires op { IsOp op }
    requires given { AreDomains D.ops given.now }
{
    fits(op, given.a.width().0, given.b.width().0, given.c.width().0)?;
    Some(D::forward(op, &given.a, &given.b, &given.c))
}

fn backward<D: Domain>(op: Op, place: u32, given: &Given<D>) -> Option<D>
    requires op { IsOp op }
    requires given { AreDomains D.ops given.now }
{
    let width = fits(op, given.a.width().0, given.b.width().0, given.c.width().0)?;
    if place >= arity(op) || given.outcome.width() != width {
        return None;
    }
    Some(D::backward(op, place, &given.outcome, &given.a, &given.b, &given.c))
}

fn meet<D: Domain>(given: &Given<D>) -> Option<D>
    requires { AreDomains D.ops given.now }
{
    if given.a.width() == given.b.width() {
        Some(given.a.meet(&given.b))
    } else {
        None
    }
}

fn with_bit<D: Domain>(bit: u32, value: bool, given: &Given<D>) -> Option<D>
    requires { AreDomains D.ops given.now }
{
    if bit < given.a.width().0 {
        Some(given.a.with_bit(bit, value))
    } else {
        None
    }
}

/// The answer of the call, where its conditions hold.
fn asked<D: Domain>(call: Call, given: &Given<D>) -> Option<D>
    requires call { IsCall call }
    requires given { AreDomains D.ops given.now }
{
    match call {
        Call::Forward { op } => forward(op, given),
        Call::Backward { op, place } => backward(op, place, given),
        Call::Meet => meet(given),
        Call::WithBit { bit, value } => with_bit(bit, value, given),
    }
}

/// The domains of a line.
fn given_in<D: Written>(numbers: &[u128]) -> Option<Given<D>>
    ensures { IfSome result (AreDomains D.ops) }
{
    Some(Given {
        a: D::read(numbers, 0)?,
        b: D::read(numbers, 1)?,
        c: D::read(numbers, 2)?,
        outcome: D::read(numbers, 3)?,
    })
}

fn answer_of<D: Written>(call: Option<Call>, numbers: &[u128]) -> Option<D>
    requires { ForSome call IsCall }
{
    asked(call?, &given_in(numbers)?)
}

/// Prints the answer of the call on the domains of a line.
pub fn answer<D: Written>(rt: &HostRuntime, call: Option<Call>, numbers: &[u128]) -> io::Result<()>
    requires { ForSome call IsCall }
{
    match answer_of::<D>(call, numbers) {
        Some(domain) => domain.print(rt),
        None => println!(rt; "not a case"),
    }
}
