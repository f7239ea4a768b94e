ghost use Rattle.std.specs.Prelude.{◌≡◌, ◌<◌, ◌-◌, ◌^◌};
ghost use Rattle.dt_bits.specs.Bits.{IsWidth, bit};

/// A number of bits, from 1 to 128.
#[derive(Clone, Copy, Debug, PartialEq, Eq, Hash)]
pub struct Width(pub u32);

/// A value: a number below two to its width.
#[derive(Clone, Copy, Debug, PartialEq, Eq, Hash)]
pub struct Bv {
    pub width: Width,
    pub bits: u128,
}

/// Bit `i` of `x`, bit 0 being the lowest.
pub fn bit_of(x: u128, i: u32) -> bool
    requires { i < 128 }
    ensures { result ≡ bit x i }
{
    (x >> i) & 1 == 1
}

/// The number whose lowest `count` bits are 1, and no others; `count` is 0 to 127.
pub fn low_ones(count: u32) -> u128
    requires { count < 128 }
    ensures { result ≡ 2 ^ count - 1 }
{
    (1 << count) - 1
}

/// The largest number of a width, whose bits are all 1.
pub fn ones(width: Width) -> u128
    requires { IsWidth width.0 }
    ensures { result ≡ 2 ^ width.0 - 1 }
{
    if width.0 == 128 {
        u128::MAX
    } else {
        low_ones(width.0)
    }
}
