ghost use Rattle.std.specs.Prelude.{◌≡◌, ◌+◌, ◌<◌, ◌≤◌};
ghost use Rattle.dt_manual.specs.Entry.{field};

/// Bits `hi` to `lo` of a number, fewer than 64 of them.
pub fn field(x: u64, hi: u32, lo: u32) -> u64
    requires order { lo ≤ hi }
    requires range { hi < 64 }
    requires part { hi < 63 + lo }
    ensures { result ≡ field hi lo x }
{
    (x >> lo) % (1 << (hi - lo + 1))
}
