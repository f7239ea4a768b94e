// All that the program does.
ghost use Rattle.std.specs.Prelude.{◌≡◌, ◌≢◌, ◌≤◌, ◌+◌, ◌^◌, ◌⊎◌, ℕ, List, Option, Some, None, Ok, map};
ghost use Rattle.std.specs.String.{string_bytes};
ghost use Rattle.dt_edge.specs.Causes.{Rose};
ghost use Rattle.dt_model.specs.ModelData.{ModelData};
ghost use Rattle.dt_request.specs.Choices.{choice_bits};
ghost use Rattle.dt_request.specs.declared.list.Requests.{Requests};
ghost use Rattle.dt_log.specs.Read.{LogData, reading as log_in};
ghost use Rattle.dt_image.specs.declared.image.Image.{Image};
ghost use Rattle.dt_top.specs.Headline.{AskedFor, IsAnswer, IsDecision, AskedToCheck, IsChecked, IsAgreed, AskedToJudge, IsJudgement, AskedToWalk, AskedToPrint, AskedToMake, AskedToLoad, IsLoaded};
ghost use Rattle.dt_top.specs.Models.{shipped_data};
ghost use Rattle.dt_top.specs.declared.models.Shipped.{Shipped};
ghost use Rattle.dt_modeltext.specs.Print.{printed};
ghost use Rattle.dt_walktext.specs.Printed.{walks_text};
ghost use Rattle.dt_top.specs.Replies.{bytes_of};
ghost use Rattle.dt_top.specs.Seen.{seen, StaysShelf};
ghost use Rattle.dt_top.specs.Table.{Row, Files, Expected, IsFixed, Comes, ComesAmong, Writes, WritesPart};
ghost use Rattle.dt_top.specs.commands.Jobs.{job_of};
ghost use Rattle.dt_top.specs.commands.Make.{made_text};
ghost use Rattle.dt_top.specs.declared.status.Status.{Status as Came};

use crate::commands::{Job, perform};
use crate::pieces::write_pieces;
use crate::reply::Reply;
use crate::status::Status;
use dt_edge::{Shelf, Sink};
use std::alloc::Global;

#[tactic(auto, using(crate::proofs::Asking::can_be_asked))]
// What the words ask for, done; words of no form are refused without memory.
fn reply<S: Shelf>(alloc: Global, words: &[String], shelf: &mut S) -> Reply
    ensures shelf { StaysShelf S.told S.faults S.taken S.steady shelf.old shelf.new }
    ensures row { Row (seen S.told S.faults S.taken S.asked shelf.old shelf.new)
        (map string_bytes words.now) result.status (bytes_of result.text) }
{
    match Job::parse(words) {
        Some(job) => perform(alloc, shelf, job),
        None => Reply::line(Status::Words, "refused words\n"),
    }
}

/// All that the program does: reads the files that the words name, answers on the sink, and says
/// by its status what came of it.
pub fn run<S: Shelf, K: Sink>(
    alloc: Global,
    words: &[String],
    shelf: &mut S,
    sink: &mut K,
) -> Status
    // The table: but for a failed write, status and text are what the words come to with the bytes
    // that the reads gave, in the order of the words. The text was written whole, in pieces of 4096
    // bytes of which the last may be shorter.
    ensures row { result ≢ Status.WriteFault
        → Writes (Row (seen S.told S.faults S.taken S.asked shelf.old shelf.new)
        (map string_bytes words.now) result)
        (K.written sink.old) (K.written sink.new) (K.pieces sink.old) (K.pieces sink.new) }

    // After a failed write there is a first part of a row's text, for which there was no room.
    ensures part { result ≡ Status.WriteFault
        → WritesPart (Row (seen S.told S.faults S.taken S.asked shelf.old shelf.new)
        (map string_bytes words.now))
        (K.takes sink.old) (K.written sink.old) (K.written sink.new) }
    ensures write_fault { result ≡ Status.WriteFault → Rose (K.faults sink.old) (K.faults sink.new) }

    // Another status than that of a failed read or write comes only where none failed.
    ensures reads { result ≢ Status.ReadFault → result ≢ Status.WriteFault
        → S.faults shelf.new ≡ S.faults shelf.old }
    ensures writes { result ≢ Status.WriteFault → K.faults sink.new ≡ K.faults sink.old }

    // Where the shelf tells its files and no read failed, status and text are among those that words
    // and files have, unless memory ran out or a write failed.
    ensures among { (files : Files) → S.told shelf.old ≡ Some files
        → ¬ Rose (S.faults shelf.old) (S.faults shelf.new)
        → ComesAmong (Expected (map string_bytes words.now) files) result
        (K.written sink.old) (K.written sink.new) }

    // There, words and files fix them but for the answers of a search: each refusal comes exactly
    // where it is due, and so does each answer of the other commands.
    ensures exact { (files : Files) → S.told shelf.old ≡ Some files
        → ¬ Rose (S.faults shelf.old) (S.faults shelf.new)
        → (due : Came) (want : List ℕ) → IsFixed (job_of (map string_bytes words.now)) due
        → Expected (map string_bytes words.now) files due want
        → Comes due want result (K.written sink.old) (K.written sink.new) }

    // The headline: for an accepted model and a list for it that is within the limits, where no read
    // failed, an image that meets the list was printed; or a log that refutes the problem of the list,
    // and no image meets it; or the record of a search that took exactly as many splits as it may.
    ensures headline { (files : Files) (d : ModelData) (list : Requests) (splits : ℕ)
        → S.told shelf.old ≡ Some files → ¬ Rose (S.faults shelf.old) (S.faults shelf.new)
        → AskedFor (map string_bytes words.now) files d list splits
        → IsAnswer d list splits result (K.written sink.old) (K.written sink.new) }

    // The decision: with at least 2^C - 1 splits, C being the number of bits of all choices, an image
    // is printed exactly where one meets the list, and else a refutation.
    ensures decision { (files : Files) (d : ModelData) (list : Requests) (splits : ℕ)
        → S.told shelf.old ≡ Some files → ¬ Rose (S.faults shelf.old) (S.faults shelf.new)
        → AskedFor (map string_bytes words.now) files d list splits
        → 2 ^ choice_bits d list ≤ splits + 1 → IsDecision d list result }

    // The checker: for an accepted model, a list for it that is within the limits and the text of a
    // log, where no read failed, the answer is closed exactly where the log refutes the problem of the
    // list, open exactly where it is a record, and else the first item with a cause.
    ensures checks { (files : Files) (d : ModelData) (list : Requests) (text : List ℕ) (log : LogData)
        → S.told shelf.old ≡ Some files → ¬ Rose (S.faults shelf.old) (S.faults shelf.new)
        → AskedToCheck (map string_bytes words.now) files d list text → log_in text ≡ Ok log
        → IsChecked d list log result (K.written sink.old) (K.written sink.new) }

    // End to end: what `solve` prints where it finds no image, `check` closes, or finds open after as
    // many splits.
    ensures agrees { (files : Files) (d : ModelData) (list : Requests) (text : List ℕ)
        → S.told shelf.old ≡ Some files → ¬ Rose (S.faults shelf.old) (S.faults shelf.new)
        → AskedToCheck (map string_bytes words.now) files d list text
        → IsAgreed d list text result (K.written sink.old) (K.written sink.new) }

    // The judge: for an accepted model, a list for it and an image that matches the list, where no
    // read failed, the answer is yes exactly where the image meets the list, and else no.
    ensures judge { (files : Files) (d : ModelData) (list : Requests) (i : Image)
        → S.told shelf.old ≡ Some files → ¬ Rose (S.faults shelf.old) (S.faults shelf.new)
        → AskedToJudge (map string_bytes words.now) files d list i
        → IsJudgement d list i result (K.written sink.old) (K.written sink.new) }

    // The walks: for a shipped model and an image for it, where no read failed, the answer is the text
    // of the walk of each access.
    ensures walks { (files : Files) (model : Shipped) (i : Image) → S.told shelf.old ≡ Some files
        → ¬ Rose (S.faults shelf.old) (S.faults shelf.new)
        → AskedToWalk (map string_bytes words.now) files model i
        → Comes Status.Good (walks_text (shipped_data model) i) result
        (K.written sink.old) (K.written sink.new) }

    // A shipped model is printed whatever the shelf has.
    ensures prints { (model : Shipped) → AskedToPrint (map string_bytes words.now) model
        → Comes Status.Good (printed (shipped_data model)) result
        (K.written sink.old) (K.written sink.new) }

    // A generated list is printed whatever the shelf has.
    ensures makes { (n : ℕ) → AskedToMake (map string_bytes words.now) n
        → Comes Status.Good (made_text n) result
        (K.written sink.old) (K.written sink.new) }

    // The search of a generated list, whatever the shelf has: an image that meets it and has the words
    // that its accesses read, and no others, with their number; or no image meets it; or there is a
    // record of exactly 10,000 splits.
    ensures loads { (n : ℕ) → AskedToLoad (map string_bytes words.now) n
        → IsLoaded n result (K.written sink.old) (K.written sink.new) }

    // Words of no form are always told, without memory.
    ensures words { job_of (map string_bytes words.now) ≡ None
        → (result ≡ Status.Words) ⊎ (result ≡ Status.WriteFault) }
    ensures words_only { result ≡ Status.Words → job_of (map string_bytes words.now) ≡ None }

    // After want of memory nothing was written.
    ensures memory { result ≡ Status.Memory → sink.new ≡ sink.old }
    ensures shelf { StaysShelf S.told S.faults S.taken S.steady shelf.old shelf.new }
    ensures sink_faults { K.faults sink.old ≤ K.faults sink.new }
{
    let reply = reply(alloc, words, shelf);
    let Ok(()) = write_pieces(sink, reply.text.as_bytes()) else {
        return Status::WriteFault;
    };
    reply.status
}
