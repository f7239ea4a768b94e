ghost use Rattle.std.specs.Prelude.{◌≡◌, ◌<◌, ◌≤◌, ◌+◌, ◌^◌, length, IfOk, IfSome};
ghost use Rattle.std.specs.Io.KnownBytes.{Consumes, IsAtEnd};
ghost use Rattle.dt_edge.specs.Causes.{RoseBy, risen};

use crate::edge::{Shelf, ShelfFault};
use std::alloc::Global;
use std::fs;
use std::io::Read;
use std::rt::Files;

// So many bytes are asked for at once.
const CHUNK: usize = 65536;

// The bytes to the end, where that comes within the limit. What was taken is added up. A source that
// gives nothing is at its end.
fn fill<F: Read>(
    alloc: Global,
    file: &mut F,
    limit: usize,
    taken: &mut u64,
) -> Result<Vec<u8>, ShelfFault>
    requires { limit < 2 ^ 32 }
    ensures within { IfOk result (λ bytes. length bytes.items ≤ limit) }
    ensures took { IfOk result (λ bytes. taken.new ≡ risen taken.old (length bytes.items)) }

    // They are all that the source had left, and TooLong tells that this was more than the limit.
    ensures given { IfOk result (λ bytes.
        Consumes (F.remaining file.old) (F.remaining file.new) bytes.items) }
    ensures end { IfOk result (λ _. IsAtEnd (F.remaining file.new)) }
    ensures more { result ≡ Err ShelfFault.TooLong
        → IfSome (F.remaining file.old) (λ left. limit < length left) }
    ensures later { taken.old ≤ taken.new }
    ensures most { taken.new ≤ taken.old + (limit + 1) }
    ensures long { result ≡ Err ShelfFault.TooLong → RoseBy (limit + 1) taken.old taken.new }
{
    let _before = *taken;
    let mut bytes = Vec::new(alloc);
    let mut chunk = [0u8; CHUNK];
    'reads: while bytes.len() <= limit {
        let want = (limit + 1 - bytes.len()).min(CHUNK);
        let Ok(count) = file.read(&mut chunk[..want]) else {
            return Err(ShelfFault::Failed);
        };
        if count == 0 {
            return Ok(bytes);
        }
        *taken = taken.saturating_add(count as u64);
        let Ok(()) = bytes.extend_from_slice(&chunk[..count]) else {
            return Err(ShelfFault::Memory);
        };
    }
    Err(ShelfFault::TooLong)
}

/// The files of the system. It tells nothing of them. Its faults are the failures of the file
/// system, an absent file among them; a file that is too long is none.
#[derive(Drop)]
pub struct FileShelf<R> {
    files: R,
    faults: u64,
    taken: u64,
}

impl<R: Files> FileShelf<R> {
    ghost use Rattle.std.specs.Prelude.{◌≡◌};
    ghost use Rattle.dt_edge.specs.Counts.{shelf_faults, shelf_taken};

    /// A shelf over the part of the runtime that opens files. Its counts start at 0.
    pub fn new(files: R) -> FileShelf<R>
        ensures faults { shelf_faults result ≡ 0 }
        ensures taken { shelf_taken result ≡ 0 }
    {
        FileShelf {
            files,
            faults: 0,
            taken: 0,
        }
    }
}

impl<R: Files> Shelf for FileShelf<R> {
    ghost use Rattle.std.specs.Prelude.{None, ◌≡◌, ◌≢◌, ◌≤◌, ◌<◌, ◌+◌, ◌^◌, length, IfOk};
    ghost use Rattle.dt_edge.specs.Causes.{Rose, RoseBy, risen};
    ghost use Rattle.dt_edge.specs.Counts.{shelf_faults, shelf_taken};

    ghost told = { λ _. None };

    ghost faults = { shelf_faults };

    ghost taken = { shelf_taken };

    ghost asked = { λ _. None };

    ghost steady = { λ _. ⊥ };

    fn read_all(&mut self, alloc: Global, name: &str, limit: u64) -> Result<Vec<u8>, ShelfFault>
        requires { limit < 2 ^ 32 }

        // What the trait asks of a shelf that tells nothing.
        ensures faults { shelf_faults self.old ≤ shelf_faults self.new }
        ensures taken { shelf_taken self.old ≤ shelf_taken self.new }
        ensures within { IfOk result (λ bytes. length bytes.items ≤ limit) }
        ensures failed { result ≡ Err ShelfFault.Failed
            → Rose (shelf_faults self.old) (shelf_faults self.new) }
        ensures quiet { result ≢ Err ShelfFault.Failed
            → shelf_faults self.new ≡ shelf_faults self.old }
        ensures long_taken { result ≡ Err ShelfFault.TooLong
            → RoseBy (limit + 1) (shelf_taken self.old) (shelf_taken self.new) }

        // It counts the bytes that it gives, and takes one more than the limit at most.
        ensures took { IfOk result (λ bytes. shelf_taken self.new
            ≡ risen (shelf_taken self.old) (length bytes.items)) }
        ensures most { shelf_taken self.new ≤ shelf_taken self.old + (limit + 1) }
    {
        let read = match fs::open(&self.files, name) {
            Ok(mut file) => fill(alloc, &mut file, limit as usize, &mut self.taken),
            Err(_) => Err(ShelfFault::Failed),
        };
        if let Err(ShelfFault::Failed) = read {
            self.faults = self.faults.saturating_add(1);
        }
        read
    }
}
