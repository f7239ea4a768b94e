mod search;

use crate::Seq;
use search::find;
use std::marker::Model;

/// A word of table memory: the address of its first byte, in bytes, and its value.
#[derive(Clone, Copy, Debug, PartialEq, Eq)]
pub struct Word {
    pub address: u128,
    pub value: u128,
}

/// The memory that translation tables lie in: from address `lo` on, below address `hi`, in words of
/// `bytes` bytes, at the multiples of `bytes`. A word that is not listed is 0.
///
/// `bytes` is 1, 2, 4 or 8; `lo` and `hi` are multiples of it, and `lo <= hi <= 2^64`. The addresses of
/// `words` strictly rise, are multiples of `bytes` and lie in the memory; each value is below two to
/// the 8 * `bytes`.
#[derive(Debug, Drop, PartialEq, Eq)]
pub struct TableMemory {
    pub bytes: u32,
    pub lo: u128,
    pub hi: u128,
    pub words: Seq<Word>,
}

impl Model for TableMemory {
    ghost use Rattle.dt_bits.specs.Memory.{Memory, IsMemory};

    ghost Value = { Memory };

    ghost view = { λ m. record { bytes = m.bytes; lo = m.lo; hi = m.hi; words = m.words } };

    ghost inverse = { λ m. record { bytes = m.bytes; lo = m.lo; hi = m.hi; words = m.words } };

    ghost invariant = { λ m. IsMemory (record { bytes = m.bytes; lo = m.lo; hi = m.hi; words = m.words }) };
}

impl TableMemory {
    ghost use Rattle.std.specs.Prelude.{◌≡◌, ◌<◌, ◌*◌, ◌^◌, IfSome};
    ghost use Rattle.dt_bits.specs.Memory.{listed, word_of};

    /// The word at an address, exactly where the address is a multiple of `bytes` and lies in the
    /// memory: the listed value, or 0 where none is listed. It looks by halves and takes no memory.
    pub fn word_at(&self, address: u128) -> Option<u128>
        ensures value { result ≡ word_of self.now address }
        ensures range { IfSome result (λ word. word < 2 ^ (8 * self.now.bytes)) }
    {
        if address % u128::from(self.bytes) == 0 && self.lo <= address && address < self.hi {
            Some(find(self.words.as_slice(), address))
        } else {
            None
        }
    }
}
