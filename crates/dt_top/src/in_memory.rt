// The program over files in memory.
ghost use Rattle.std.specs.Prelude.{◌≡◌, [], ℕ, List, Some, map};
ghost use Rattle.std.specs.String.{string_bytes};
ghost use Rattle.dt_edge.specs.MemoryShelf.{files_of, failing_of, faults_of, taken_of, asked_of};
ghost use Rattle.dt_edge.specs.MemorySink.{failing_of as sink_failing, room_of, bytes_of};
ghost use Rattle.dt_top.specs.Seen.{seen};
ghost use Rattle.dt_top.specs.Table.{Expected, IsFixed, Comes, ComesAmong, Row, NeedsMore};
ghost use Rattle.dt_top.specs.commands.Jobs.{job_of};
ghost use Rattle.dt_top.specs.declared.status.Status.{Status as Came};

use crate::program::run;
use crate::status::Status;
use dt_edge::{MemoryShelf, MemorySink};
use std::alloc::Global;

/// The program over files in memory, with no call that fails: its status and its text are among the
/// ones that words and files have, and these are fixed but for the answers of a search, unless memory
/// ran out, or the output has less room than a text that may come.
pub fn run_in_memory(
    alloc: Global,
    words: &[String],
    shelf: &mut MemoryShelf,
    sink: &mut MemorySink,
) -> Status
    requires shelf { failing_of shelf.old ≡ [] }
    requires fresh { faults_of shelf.old ≡ 0 }
    requires sink { sink_failing sink.old ≡ [] }
    ensures among { ComesAmong (Expected (map string_bytes words.now) (files_of shelf.old)) result
        (Some (bytes_of sink.old)) (Some (bytes_of sink.new)) }
    ensures exact { (due : Came) (want : List ℕ) → IsFixed (job_of (map string_bytes words.now)) due
        → Expected (map string_bytes words.now) (files_of shelf.old) due want
        → Comes due want result (Some (bytes_of sink.old)) (Some (bytes_of sink.new)) }
    ensures room { result ≡ Status.WriteFault
        → NeedsMore (Row (seen (λ s. Some (files_of s)) faults_of taken_of asked_of shelf.old shelf.new)
        (map string_bytes words.now)) (room_of sink.old) }
{
    run(alloc, words, shelf, sink)
}
