ghost use Rattle.std.specs.Prelude.{◌≡◌, ◌≤◌, ◌+◌, ◌*◌, ◌^◌, IfOk, OnErr};

use dt_bits::NoMemory;

/// The number, where it fits a position.
pub fn position(n: usize) -> Result<u32, NoMemory>
    ensures value { IfOk result (λ k. k ≡ n) }
    ensures too_large { OnErr result (2 ^ 32 ≤ n) }
{
    u32::try_from(n).map_err(|_| NoMemory)
}

/// The sum, where it fits a position.
pub fn total(a: u32, b: u32) -> Result<u32, NoMemory>
    ensures value { IfOk result (λ k. k ≡ a + b) }
    ensures too_large { OnErr result (2 ^ 32 ≤ a + b) }
{
    a.checked_add(b).ok_or(NoMemory)
}

/// The product, where it fits a position.
pub fn product(a: u32, b: u32) -> Result<u32, NoMemory>
    ensures value { IfOk result (λ k. k ≡ a * b) }
    ensures too_large { OnErr result (2 ^ 32 ≤ a * b) }
{
    a.checked_mul(b).ok_or(NoMemory)
}
