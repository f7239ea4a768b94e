ghost use Rattle.std.specs.Prelude.{◌≡◌, ◌∷◌, [], option_copied};
ghost use Rattle.dt_edge.specs.Files.{file_of};
ghost use Rattle.dt_edge.specs.MemoryShelf.{names_of};
ghost use Rattle.dt_edge.specs.Told.{Asks};

use crate::edge::{Shelf, ShelfFault};
use crate::failing::is_listed;
use dt_bits::NoMemory;
use std::alloc::Global;

#[derive(Drop)]
struct File {
    name: String,
    bytes: Vec<u8>,
}

// The bytes of the first file with this name.
fn bytes_named<'a>(files: &'a [File], name: &str) -> Option<&'a [u8]>
    ensures { option_copied result ≡ file_of files.now name.now }
{
    for file in files {
        if file.name.as_str() == name {
            return Some(file.bytes.as_slice());
        }
    }
    None
}

// The names with one more, or nothing from where memory runs out.
fn with_name(names: Option<Vec<String>>, name: &str) -> Option<Vec<String>>
    ensures { Asks (names_of names) (names_of result) (name.now ∷ []) }
{
    let mut names = names?;
    let alloc = *names.allocator();
    let Ok(name) = String::from_str(alloc, name) else {
        return None;
    };
    match names.push(name) {
        Ok(()) => Some(names),
        Err(_) => None,
    }
}

/// Files in memory. It tells them, and the names that were asked for until memory runs out for one.
/// The calls of `read_all` are counted from 0, and those at the positions in a list fail.
#[derive(Drop)]
pub struct MemoryShelf {
    files: Vec<File>,
    failing: Vec<u32>,
    calls: u64,
    faults: u64,
    taken: u64,
    asked: Option<Vec<String>>,
}

impl MemoryShelf {
    ghost use Rattle.std.specs.Prelude.{◌≡◌, [], ℕ, List, Some, None, IfOk, OnOk, OnErr, if◌then◌else◌};
    ghost use Rattle.std.specs.Str.{bytes_eq};
    ghost use Rattle.dt_edge.specs.MemoryShelf.{files_of, failing_of, calls_of, faults_of, taken_of, asked_of};

    /// A shelf without files, whose calls of `read_all` at the positions in `failing` fail.
    pub fn new(alloc: Global, failing: &[u32]) -> Result<MemoryShelf, NoMemory>
        ensures files { IfOk result (λ shelf. (name : List ℕ) → files_of shelf name ≡ None) }
        ensures failing { IfOk result (λ shelf. failing_of shelf ≡ failing.now) }
        ensures calls { IfOk result (λ shelf. calls_of shelf ≡ 0) }
        ensures faults { IfOk result (λ shelf. faults_of shelf ≡ 0) }
        ensures taken { IfOk result (λ shelf. taken_of shelf ≡ 0) }
        ensures asked { IfOk result (λ shelf. asked_of shelf ≡ Some []) }
    {
        Ok(MemoryShelf {
            files: Vec::new(alloc),
            failing: Vec::from_slice(alloc, failing)?,
            calls: 0,
            faults: 0,
            taken: 0,
            asked: Some(Vec::new(alloc)),
        })
    }

    /// Puts a file. A name that was put before has the new bytes from then on. Without memory for
    /// it, the shelf stays.
    pub fn put(&mut self, name: &str, bytes: &[u8]) -> Result<(), NoMemory>
        ensures ok { OnOk result ((other : List ℕ) → files_of self.new other
            ≡ (if bytes_eq name.now other then Some bytes.now else files_of self.old other)) }
        ensures err { OnErr result (files_of self.new ≡ files_of self.old) }

        // All else stays.
        ensures failing { failing_of self.new ≡ failing_of self.old }
        ensures calls { calls_of self.new ≡ calls_of self.old }
        ensures faults { faults_of self.new ≡ faults_of self.old }
        ensures taken { taken_of self.new ≡ taken_of self.old }
        ensures asked { asked_of self.new ≡ asked_of self.old }
    {
        let alloc = *self.files.allocator();
        let name = String::from_str(alloc, name)?;
        let bytes = Vec::from_slice(alloc, bytes)?;
        self.files.insert(0, File { name, bytes })?;
        Ok(())
    }
}

impl Shelf for MemoryShelf {
    ghost use Rattle.std.specs.Prelude.{◌≡◌, ◌≢◌, ◌≤◌, ◌+◌, ◌<◌, ◌^◌, ◌⊎◌, ◌∷◌, Some, IsSome, length, IfOk, [], if◌then◌else◌};
    ghost use Rattle.dt_edge.specs.Causes.{Rose, RoseBy, risen};
    ghost use Rattle.dt_edge.specs.Told.{Has, IsAbsent, IsLong, Asks};
    ghost use Rattle.dt_edge.specs.MemoryShelf.{files_of, failing_of, calls_of, faults_of, taken_of, asked_of, is_failing, read_of, taken_by, Gives};

    ghost told = { λ shelf. Some (files_of shelf) };

    ghost faults = { faults_of };

    ghost taken = { taken_of };

    ghost asked = { asked_of };

    ghost steady = { λ shelf. failing_of shelf ≡ [] };

    fn read_all(&mut self, alloc: Global, name: &str, limit: u64) -> Result<Vec<u8>, ShelfFault>
        requires { limit < 2 ^ 32 }

        // What the trait asks.
        ensures told { Some (files_of self.new) ≡ Some (files_of self.old) }
        ensures faults { faults_of self.old ≤ faults_of self.new }
        ensures taken { taken_of self.old ≤ taken_of self.new }
        ensures asked { Asks (asked_of self.old) (asked_of self.new) (name.now ∷ []) }
        ensures within { IfOk result (λ bytes. length bytes.items ≤ limit) }
        ensures bytes { IfOk result (λ bytes. Has (Some (files_of self.old)) name.now bytes.items) }
        ensures failed { result ≡ Err ShelfFault.Failed
            → Rose (faults_of self.old) (faults_of self.new)
            ⊎ IsAbsent (Some (files_of self.old)) name.now }
        ensures quiet { result ≢ Err ShelfFault.Failed → faults_of self.new ≡ faults_of self.old }
        ensures long { result ≡ Err ShelfFault.TooLong
            → IsLong (Some (files_of self.old)) name.now limit }
        ensures long_taken { result ≡ Err ShelfFault.TooLong
            → RoseBy (limit + 1) (taken_of self.old) (taken_of self.new) }
        ensures steady { failing_of self.old ≡ [] → failing_of self.new ≡ [] }
        ensures unfailing { failing_of self.old ≡ [] → faults_of self.new ≡ faults_of self.old }
        ensures present { failing_of self.old ≡ [] → result ≡ Err ShelfFault.Failed
            → IsAbsent (Some (files_of self.old)) name.now }

        // Which answer it is, up to Memory in place of bytes.
        ensures exact { Gives result (read_of self.old name.now limit) }

        // Without failing calls no file that was put fails.
        ensures put_file { failing_of self.old ≡ [] → IsSome (files_of self.old name.now)
            → result ≡ Err ShelfFault.Failed → ⊥ }

        // The calls at the listed positions are the faults. An absent file is none.
        ensures counted { faults_of self.new
            ≡ (if is_failing self.old then risen (faults_of self.old) 1 else faults_of self.old) }
        ensures took { taken_of self.new
            ≡ risen (taken_of self.old) (taken_by self.old name.now limit) }
        ensures calls { calls_of self.new ≡ risen (calls_of self.old) 1 }
        ensures failing { failing_of self.new ≡ failing_of self.old }
    {
        self.asked = with_name(self.asked.take(), name);
        let call = self.calls;
        self.calls = call.saturating_add(1);
        if is_listed(self.failing.as_slice(), call) {
            self.faults = self.faults.saturating_add(1);
            return Err(ShelfFault::Failed);
        }
        let Some(bytes) = bytes_named(self.files.as_slice(), name) else {
            return Err(ShelfFault::Failed);
        };
        if bytes.len() as u64 > limit {
            self.taken = self.taken.saturating_add(limit + 1);
            return Err(ShelfFault::TooLong);
        }
        self.taken = self.taken.saturating_add(bytes.len() as u64);
        match Vec::from_slice(alloc, bytes) {
            Ok(copy) => Ok(copy),
            Err(_) => Err(ShelfFault::Memory),
        }
    }
}
