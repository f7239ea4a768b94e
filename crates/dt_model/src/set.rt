ghost use Rattle.std.specs.Prelude.{◌≡◌, ℕ, ◌<◌, ◌==◌, ◌&&◌, ◌||◌, not, true, false};
ghost use Rattle.dt_model.specs.Sets.{has};

use dt_bits::bit_of;

/// A set of variables, by their numbers below 512.
#[derive(Clone, Copy, Debug)]
pub struct VarSet {
    pub lanes: [u128; 4],
}

impl VarSet {
    /// No variable.
    pub fn empty() -> VarSet
        ensures { (v : ℕ) → v < 512 → has result v ≡ false }
    {
        VarSet { lanes: [0; 4] }
    }

    /// All variables.
    pub fn all() -> VarSet
        ensures { (v : ℕ) → v < 512 → has result v ≡ true }
    {
        VarSet {
            lanes: [u128::MAX; 4],
        }
    }

    /// Whether the variable is in the set.
    pub fn contains(&self, var: u32) -> bool
        requires { var < 512 }
        ensures { result ≡ has self.now var }
    {
        bit_of(self.lanes[(var / 128) as usize], var % 128)
    }

    /// The variables of either set.
    pub fn union(&self, other: &VarSet) -> VarSet
        ensures { (v : ℕ) → v < 512 → has result v ≡ (has self.now v || has other.now v) }
    {
        let a = self.lanes;
        let b = other.lanes;
        VarSet {
            lanes: [a[0] | b[0], a[1] | b[1], a[2] | b[2], a[3] | b[3]],
        }
    }

    /// The set with this variable.
    pub fn with(&self, var: u32) -> VarSet
        requires { var < 512 }
        ensures { (v : ℕ) → v < 512 → has result v ≡ (has self.now v || v == var) }
    {
        let mut lanes = self.lanes;
        let i = (var / 128) as usize;
        lanes[i] = lanes[i] | (1 << (var % 128));
        VarSet { lanes }
    }

    /// The set without this variable.
    pub fn without(&self, var: u32) -> VarSet
        requires { var < 512 }
        ensures { (v : ℕ) → v < 512 → has result v ≡ (has self.now v && not (v == var)) }
    {
        let mut lanes = self.lanes;
        let i = (var / 128) as usize;
        lanes[i] = lanes[i] & !(1 << (var % 128));
        VarSet { lanes }
    }
}
