ghost use Rattle.std.specs.Prelude.{◌≡◌, ◌+◌, ◌/◌, ◌^◌, IfOk, OnOk};
ghost use Rattle.dt_build.specs.Building.{placed_in};
ghost use Rattle.dt_forms.specs.Placing.{place_const};

use dt_bits::{NoMemory, Width};
use dt_build::Builder;

/// The position so many terms behind another.
pub(crate) fn offset(base: u32, count: u32) -> Result<u32, NoMemory>
    ensures { IfOk result (λ t. t ≡ base + count) }
{
    if count > u32::MAX - base {
        return Err(NoMemory);
    }
    Ok(base + count)
}

/// The whole quotient by 2^exponent.
pub(crate) fn quotient(number: u128, exponent: u32) -> u128
    ensures { result ≡ number / 2 ^ exponent }
{
    if exponent < 128 {
        number >> exponent
    } else {
        0
    }
}

/// Where the constant of this width stands. Where it isn't below two to the width, it can't be added.
pub(crate) fn number(builder: &mut Builder, width: u32, bits: u128) -> Result<u32, NoMemory>
    ensures at { IfOk result (λ t. t ≡ (place_const builder.old.terms width bits).at) }
    ensures placed { OnOk result (builder.new ≡ placed_in builder.old (place_const builder.old.terms width bits)) }
{
    if width == 0 || width > 128 || quotient(bits, width) != 0 {
        return Err(NoMemory);
    }
    builder.number(Width(width), bits)
}
