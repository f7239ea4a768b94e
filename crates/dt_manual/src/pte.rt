ghost use Rattle.std.specs.Prelude.{◌≡◌, ◌≤◌, ◌*◌};
ghost use Rattle.dt_manual.specs.Entry.{flag, V, R, W, X, U, A, D, N, PPN, PBMT, is_invalid, is_reserved, is_pointer, is_bad_pointer, is_bad_napot, is_misaligned, is_stale, judged, table_at, led, page_of};
ghost use Rattle.dt_manual.specs.Verdicts.{verdict_of};

use crate::bits::field;

/// A page table entry of 8 bytes.
#[derive(Clone, Copy, Debug, PartialEq, Eq)]
pub struct Pte {
    pub bits: u64,
}

/// What an entry is: a fault of its stage, a pointer to the next table, or a leaf.
#[derive(Clone, Copy, Debug, PartialEq, Eq)]
pub enum Verdict {
    Fails,
    Pointer,
    Leaf,
}

impl Pte {
    fn flag(self, k: u32) -> bool
        requires { k ≤ 63 }
        ensures { result ≡ flag k self.bits }
    {
        field(self.bits, k, k) == 1
    }

    /// V.
    fn is_valid(self) -> bool
        ensures { result ≡ V self.bits }
    {
        self.flag(0)
    }

    /// R.
    pub fn is_readable(self) -> bool
        ensures { result ≡ R self.bits }
    {
        self.flag(1)
    }

    /// W.
    pub fn is_writable(self) -> bool
        ensures { result ≡ W self.bits }
    {
        self.flag(2)
    }

    /// X.
    pub fn is_executable(self) -> bool
        ensures { result ≡ X self.bits }
    {
        self.flag(3)
    }

    /// U.
    pub fn is_for_user(self) -> bool
        ensures { result ≡ U self.bits }
    {
        self.flag(4)
    }

    /// A.
    fn is_accessed(self) -> bool
        ensures { result ≡ A self.bits }
    {
        self.flag(6)
    }

    /// D.
    fn is_dirty(self) -> bool
        ensures { result ≡ D self.bits }
    {
        self.flag(7)
    }

    /// N.
    fn is_napot(self) -> bool
        ensures { result ≡ N self.bits }
    {
        self.flag(63)
    }

    fn memory_type(self) -> u64
        ensures { result ≡ PBMT self.bits }
    {
        field(self.bits, 62, 61)
    }

    fn is_invalid(self) -> bool
        ensures { result ≡ is_invalid self.bits }
    {
        !self.is_valid() || (!self.is_readable() && self.is_writable())
    }

    fn is_reserved(self) -> bool
        ensures { result ≡ is_reserved self.bits }
    {
        field(self.bits, 60, 54) != 0 || self.memory_type() == 3
    }

    fn is_pointer(self) -> bool
        ensures { result ≡ is_pointer self.bits }
    {
        !self.is_readable() && !self.is_executable()
    }

    fn is_bad_pointer(self, level: u32) -> bool
        ensures { result ≡ is_bad_pointer level self.bits }
    {
        self.is_for_user()
            || self.is_accessed()
            || self.is_dirty()
            || self.is_napot()
            || self.memory_type() != 0
            || level == 0
    }

    fn is_bad_napot(self, level: u32) -> bool
        ensures { result ≡ is_bad_napot level self.bits }
    {
        self.is_napot() && (level != 0 || field(self.bits, 13, 10) != 8)
    }

    fn is_misaligned(self, level: u32) -> bool
        requires { level ≤ 4 }
        ensures { result ≡ is_misaligned 9 level self.bits }
    {
        (self.bits >> 10) % (1 << (9 * level)) != 0
    }

    fn is_stale(self, stores: bool) -> bool
        ensures { result ≡ is_stale stores self.bits }
    {
        !self.is_accessed() || (stores && !self.is_dirty())
    }

    /// The rules of an entry at a level, for an access that may use it as a leaf or may not, and
    /// that stores or doesn't.
    pub fn judge(self, level: u32, permitted: bool, stores: bool) -> Verdict
        requires { level ≤ 4 }
        ensures { verdict_of result ≡ judged (λ _. permitted) stores 9 level self.bits }
    {
        if self.is_invalid() || self.is_reserved() {
            return Verdict::Fails;
        }
        if self.is_pointer() {
            if self.is_bad_pointer(level) {
                return Verdict::Fails;
            }
            return Verdict::Pointer;
        }
        if self.is_bad_napot(level) || !permitted {
            return Verdict::Fails;
        }
        if self.is_misaligned(level) || self.is_stale(stores) {
            return Verdict::Fails;
        }
        Verdict::Leaf
    }

    /// The table that a pointer names.
    pub fn table(self) -> u64
        ensures { result ≡ table_at self.bits }
    {
        field(self.bits, 53, 10) * 4096
    }

    /// Where a leaf at a level leads an address.
    pub fn led(self, level: u32, x: u64) -> u64
        requires { level ≤ 2 }
        ensures { result ≡ led 9 level self.bits x }
    {
        if self.is_napot() {
            field(self.bits, 53, 14) * 65536 + x % 65536
        } else if level == 0 {
            field(self.bits, 53, 10) * 4096 + x % 4096
        } else if level == 1 {
            field(self.bits, 53, 19) * 2097152 + x % 2097152
        } else {
            field(self.bits, 53, 28) * 1073741824 + x % 1073741824
        }
    }

    /// The exponent of a leaf's page.
    pub fn page(self, level: u32) -> u32
        requires { level ≤ 2 }
        ensures { result ≡ page_of 9 level self.bits }
    {
        if self.is_napot() { 16 } else { 12 + 9 * level }
    }
}
