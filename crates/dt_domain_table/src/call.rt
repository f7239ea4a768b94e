//! The call that a line asks for.
ghost use Rattle.std.specs.Prelude.{IfSome};
ghost use Rattle.dt_bits.specs.Ops.{IsOp};
ghost use Rattle.dt_domain_table.specs.Cases.{IsCall};

use crate::numbers::small;
use dt_bits::Op;
use dt_script::operator;

/// A call of a domain.
#[derive(Clone, Copy, Debug)]
pub enum Call {
    Forward { op: Op },
    Backward { op: Op, place: u32 },
    Meet,
    WithBit { bit: u32, value: bool },
}

/// The call of this name, with the line's place and parameters.
pub fn call_of(name: &str, given: &[u128]) -> Option<Call>
    ensures { IfSome result IsCall }
{
    match name {
        "meet" => Some(Call::Meet),
        "with_bit" => Some(Call::WithBit {
            bit: small(given, 1)?,
            value: small(given, 2)? == 1,
        }),
        _ => {
            let op = operator(name, given.get(1..)?)?;
            let place = small(given, 0)?;
            if place == 3 {
                Some(Call::Forward { op })
            } else {
                Some(Call::Backward { op, place })
            }
        }
    }
}
