ghost use Rattle.std.specs.Prelude.{◌≡◌};
ghost use Rattle.dt_edge.specs.Causes.{is_listed};

/// Whether the call at this position is among those that fail.
pub fn is_listed(failing: &[u32], call: u64) -> bool
    ensures { result ≡ is_listed failing.now call }
{
    failing.iter().any(|position| u64::from(*position) == call)
}
