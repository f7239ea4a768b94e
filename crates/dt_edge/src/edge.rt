ghost use Rattle.std.specs.Prelude.{◌≡◌, ◌≢◌, ◌<◌, ◌≤◌, ◌+◌, ◌^◌, ◌⊎◌, ◌∷◌, [], ℕ, List, Option, length, IfOk, OnOk, OnErr};
ghost use Rattle.dt_edge.specs.Causes.{Rose, RoseBy};
ghost use Rattle.dt_edge.specs.Told.{Told, Has, IsAbsent, IsLong, Asks, after, with_pieces, AppendsPart};

use std::alloc::Global;
use std::error::Error;
use std::fmt;
use std::fmt::Display;

/// Why a file was not read.
#[derive(Clone, Copy, Debug, PartialEq, Eq)]
pub enum ShelfFault {
    /// The outside failed, or there is no such file.
    Failed,

    /// The file has more bytes than the limit.
    TooLong,

    /// There was no memory for the bytes.
    Memory,
}

impl Display for ShelfFault {
    fn fmt<W: fmt::Write>(&self, f: &mut fmt::Formatter<W>) -> fmt::Result {
        match self {
            ShelfFault::Failed => write!(f, "the file could not be read"),
            ShelfFault::TooLong => write!(f, "the file is too long"),
            ShelfFault::Memory => write!(f, "memory ran out"),
        }
    }
}

impl Error for ShelfFault {}

/// The outside didn't take all bytes.
#[derive(Clone, Copy, Debug, PartialEq, Eq)]
pub struct SinkFault;

impl Display for SinkFault {
    fn fmt<W: fmt::Write>(&self, f: &mut fmt::Formatter<W>) -> fmt::Result {
        write!(f, "the output could not be written")
    }
}

impl Error for SinkFault {}

/// Files by their names.
pub trait Shelf {
    // The bytes of each file, where the shelf tells them.
    ghost told: { Self → Told };

    // How often the outside failed. A count is of 64 bits and stays at its last value.
    ghost faults: { Self → ℕ };

    // How many bytes were taken from the outside, a count of the same kind.
    ghost taken: { Self → ℕ };

    // The names that were asked for, in order, where the shelf tells them.
    ghost asked: { Self → Option (List (List ℕ)) };

    // No call fails from here on.
    ghost steady: { Self → Type 0 };

    /// All bytes of a file, where there are no more than `limit`.
    ///
    /// TooLong where there are more; it takes at most `limit + 1` bytes to tell. Failed where the
    /// outside failed or, on a shelf that tells, where there is no file of this name. Memory where
    /// there is none for the bytes.
    fn read_all(&mut self, alloc: Global, name: &str, limit: u64) -> Result<Vec<u8>, ShelfFault>
        requires { limit < 2 ^ 32 }

        // What is told of the files stays, and the counts never fall.
        ensures told { told self.new ≡ told self.old }
        ensures faults { faults self.old ≤ faults self.new }
        ensures taken { taken self.old ≤ taken self.new }

        // The name was asked for after those before, where the shelf still tells them.
        ensures asked { Asks (asked self.old) (asked self.new) (name.now ∷ []) }

        // The bytes are the file's, within the limit.
        ensures within { IfOk result (λ bytes. length bytes.items ≤ limit) }
        ensures bytes { IfOk result (λ bytes. Has (told self.old) name.now bytes.items) }

        // Failed and TooLong have their causes, and no other answer counts a fault.
        ensures failed { result ≡ Err ShelfFault.Failed
            → Rose (faults self.old) (faults self.new) ⊎ IsAbsent (told self.old) name.now }
        ensures quiet { result ≢ Err ShelfFault.Failed → faults self.new ≡ faults self.old }
        ensures long { result ≡ Err ShelfFault.TooLong → IsLong (told self.old) name.now limit }
        ensures long_taken { result ≡ Err ShelfFault.TooLong
            → RoseBy (limit + 1) (taken self.old) (taken self.new) }

        // A steady shelf stays so, counts no fault, and gives each file that it has.
        ensures steady { steady self.old → steady self.new }
        ensures unfailing { steady self.old → faults self.new ≡ faults self.old }
        ensures present { steady self.old → result ≡ Err ShelfFault.Failed
            → IsAbsent (told self.old) name.now };
}

/// An output.
pub trait Sink {
    // All bytes that were taken, where the sink tells them.
    ghost written: { Self → Option (List ℕ) };

    // How often the outside failed. The count is of 64 bits and stays at its last value.
    ghost faults: { Self → ℕ };

    // The bytes of each call that was Ok, where the sink tells them.
    ghost pieces: { Self → Option (List (List ℕ)) };

    // So many bytes more are taken without a fault.
    ghost takes: { Self → ℕ → Type 0 };

    /// Appends all bytes. After an Err, which comes only where the outside failed, some first part
    /// of them was appended.
    fn write_all(&mut self, bytes: &[u8]) -> Result<(), SinkFault>
        ensures faults { faults self.old ≤ faults self.new }

        // Ok appended all, and counts no fault.
        ensures quiet { OnOk result (faults self.new ≡ faults self.old) }
        ensures all { OnOk result (written self.new ≡ after (written self.old) bytes.now) }
        ensures piece { OnOk result (pieces self.new ≡ with_pieces (pieces self.old) (bytes.now ∷ [])) }

        // Err has its cause, and appended a first part.
        ensures part { OnErr result (AppendsPart (written self.old) (written self.new) bytes.now) }
        ensures failed { OnErr result (Rose (faults self.old) (faults self.new)) }

        // Bytes that the sink takes don't fail, and it takes so many fewer from then on.
        ensures room { (more : ℕ) → takes self.old (length bytes.now + more) → takes self.new more }
        ensures full { OnErr result ((more : ℕ) → takes self.old (length bytes.now + more) → ⊥) };
}
