ghost use Rattle.std.specs.Prelude.{◌≤◌, ◌+◌, length, vec_capacity};

use crate::edge::{Sink, SinkFault};
use crate::failing::is_listed;
use dt_bits::NoMemory;
use std::alloc::Global;

/// An output in memory, with room for so many bytes from the start. It tells its bytes. The calls of
/// `write_all` are counted from 0, and those at the positions in a list fail, as does one with more
/// bytes than there is room for. No write takes memory.
#[derive(Drop)]
pub struct MemorySink {
    bytes: Vec<u8>,
    room: u64,
    keep: u64,
    failing: Vec<u32>,
    calls: u64,
    faults: u64,
    ghost reserved: { length bytes.items + room ≤ vec_capacity bytes },
}

impl MemorySink {
    ghost use Rattle.std.specs.Prelude.{◌≡◌, ◌≤◌, ◌+◌, ◌++◌, [], length, IfOk};
    ghost use Rattle.dt_edge.specs.MemorySink.{bytes_of, room_of, keep_of, failing_of, calls_of, faults_of, is_refused};

    /// An empty output with room for `room` bytes, whose calls of `write_all` at the positions in
    /// `failing` fail. A call that fails appends nothing.
    pub fn new(alloc: Global, room: u64, failing: &[u32]) -> Result<MemorySink, NoMemory>
        ensures bytes { IfOk result (λ sink. bytes_of sink ≡ []) }
        ensures room { IfOk result (λ sink. room_of sink ≡ room) }
        ensures keep { IfOk result (λ sink. keep_of sink ≡ 0) }
        ensures failing { IfOk result (λ sink. failing_of sink ≡ failing.now) }
        ensures calls { IfOk result (λ sink. calls_of sink ≡ 0) }
        ensures faults { IfOk result (λ sink. faults_of sink ≡ 0) }
    {
        MemorySink::partial(alloc, room, failing, 0)
    }

    /// The same, but a call that fails appends as many of its first bytes as there is room for, and
    /// at most `keep`.
    pub fn partial(
        alloc: Global,
        room: u64,
        failing: &[u32],
        keep: u64,
    ) -> Result<MemorySink, NoMemory>
        ensures bytes { IfOk result (λ sink. bytes_of sink ≡ []) }
        ensures room { IfOk result (λ sink. room_of sink ≡ room) }
        ensures keep { IfOk result (λ sink. keep_of sink ≡ keep) }
        ensures failing { IfOk result (λ sink. failing_of sink ≡ failing.now) }
        ensures calls { IfOk result (λ sink. calls_of sink ≡ 0) }
        ensures faults { IfOk result (λ sink. faults_of sink ≡ 0) }
    {
        Ok(MemorySink {
            bytes: Vec::with_capacity(alloc, room as usize)?,
            room,
            keep,
            failing: Vec::from_slice(alloc, failing)?,
            calls: 0,
            faults: 0,
        })
    }

    /// All bytes that were appended.
    pub fn written(&self) -> &[u8]
        ensures { result.now ≡ bytes_of self.now }
    {
        self.bytes.as_slice()
    }

    // Whether the next call fails, with so many bytes.
    fn is_refused(&self, len: u64) -> bool
        ensures { result ≡ is_refused self.now len }
    {
        is_listed(self.failing.as_slice(), self.calls) || self.room < len
    }

    // Appends bytes for which there is room.
    fn append(&mut self, bytes: &[u8])
        requires { length bytes.now ≤ room_of self.old }
        ensures bytes { bytes_of self.new ≡ bytes_of self.old ++ bytes.now }
        ensures room { room_of self.new + length bytes.now ≡ room_of self.old }
        ensures keep { keep_of self.new ≡ keep_of self.old }
        ensures failing { failing_of self.new ≡ failing_of self.old }
        ensures calls { calls_of self.new ≡ calls_of self.old }
        ensures faults { faults_of self.new ≡ faults_of self.old }
    {
        self.room -= bytes.len() as u64;
        self.bytes.extend_from_slice(bytes).unwrap();
    }
}

impl Sink for MemorySink {
    ghost use Rattle.std.specs.Prelude.{◌≡◌, ◌≤◌, ◌++◌, ◌+◌, Some, None, length, take, OnOk, OnErr, IsOk, is_err, [], ℕ, if◌then◌else◌};
    ghost use Rattle.dt_edge.specs.Causes.{Rose, risen};
    ghost use Rattle.dt_edge.specs.Told.{after, AppendsPart};
    ghost use Rattle.dt_edge.specs.MemorySink.{bytes_of, room_of, keep_of, failing_of, calls_of, faults_of, is_refused, kept_by};

    ghost written = { λ sink. Some (bytes_of sink) };

    ghost faults = { faults_of };

    ghost pieces = { λ _. None };

    ghost takes = { λ sink count. (failing_of sink ≡ []) × (count ≤ room_of sink) };

    fn write_all(&mut self, bytes: &[u8]) -> Result<(), SinkFault>
        // What the trait asks.
        ensures faults { faults_of self.old ≤ faults_of self.new }
        ensures quiet { OnOk result (faults_of self.new ≡ faults_of self.old) }
        ensures all { OnOk result (Some (bytes_of self.new)
            ≡ after (Some (bytes_of self.old)) bytes.now) }
        ensures part { OnErr result (AppendsPart (Some (bytes_of self.old))
            (Some (bytes_of self.new)) bytes.now) }
        ensures failed { OnErr result (Rose (faults_of self.old) (faults_of self.new)) }
        ensures room { (more : ℕ)
            → (failing_of self.old ≡ []) × (length bytes.now + more ≤ room_of self.old)
            → (failing_of self.new ≡ []) × (more ≤ room_of self.new) }
        ensures full { OnErr result ((more : ℕ)
            → (failing_of self.old ≡ []) × (length bytes.now + more ≤ room_of self.old) → ⊥) }

        // It fails exactly where the call is listed or the room is too small.
        ensures when { is_err result ≡ is_refused self.old (length bytes.now) }

        // Without failing calls no write within the room fails.
        ensures within_room { failing_of self.old ≡ []
            → length bytes.now ≤ room_of self.old → IsOk result }

        // What a failing call appends: nothing, but where `partial` made the sink.
        ensures kept { OnErr result (bytes_of self.new
            ≡ bytes_of self.old ++ take (kept_by self.old (length bytes.now)) bytes.now) }
        ensures nothing { OnErr result (keep_of self.old ≡ 0 → bytes_of self.new ≡ bytes_of self.old) }

        // The failing calls are the faults.
        ensures counted { faults_of self.new ≡ (if is_refused self.old (length bytes.now)
            then risen (faults_of self.old) 1 else faults_of self.old) }
        ensures calls { calls_of self.new ≡ risen (calls_of self.old) 1 }
        ensures keep { keep_of self.new ≡ keep_of self.old }
        ensures failing { failing_of self.new ≡ failing_of self.old }
        ensures left { room_of self.new + length (bytes_of self.new)
            ≡ room_of self.old + length (bytes_of self.old) }
    {
        let len = bytes.len() as u64;
        let is_refused = self.is_refused(len);
        self.calls = self.calls.saturating_add(1);
        if is_refused {
            self.faults = self.faults.saturating_add(1);
            let kept = self.keep.min(self.room).min(len) as usize;
            self.append(&bytes[..kept]);
            return Err(SinkFault);
        }
        self.append(bytes);
        Ok(())
    }
}
