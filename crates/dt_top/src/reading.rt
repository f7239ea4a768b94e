// The files that a command reads, one after another.
ghost use Rattle.std.specs.Prelude.{◌≡◌, ◌≤◌, ◌∷◌, ◌++◌, [], ℕ, List, length, IfOk, IfErr};
ghost use Rattle.dt_model.specs.Accepted.{accepted_data};
ghost use Rattle.dt_request.specs.Lists.{IsList};
ghost use Rattle.dt_top.specs.Course.{Never, OnFile};
ghost use Rattle.dt_top.specs.Replies.{bytes_of};
ghost use Rattle.dt_top.specs.Seen.{seen, StaysShelf, Took, TookModel, TookBoth};
ghost use Rattle.dt_top.specs.Stages.{OnModel, IsRequests, OnRequests};
ghost use Rattle.dt_top.specs.Models.{shipped, of_file, model_asked, model_files, OnModelWord, OnModelAndList};
ghost use Rattle.dt_top.specs.Table.{in_call, Ends};

use crate::file::File;
use crate::models::{ModelWord, Shipped};
use crate::reply::Reply;
use crate::stages::{accepted_model, request_list};
use crate::status::Status;
use dt_edge::{Shelf, ShelfFault};
use dt_model::Accepted;
use dt_request::Requests;
use std::alloc::Global;

/// The bytes of a file that the words name.
pub fn read<S: Shelf>(
    alloc: Global,
    shelf: &mut S,
    file: File,
    name: &str,
) -> Result<Vec<u8>, Reply>
    ensures shelf { StaysShelf S.told S.faults S.taken S.steady shelf.old shelf.new }
    ensures took { IfOk result (λ bytes.
        Took (seen S.told S.faults S.taken S.asked shelf.old shelf.new) file name.now bytes.items) }
    ensures unread { IfErr result (λ reply.
        Ends (in_call (seen S.told S.faults S.taken S.asked shelf.old shelf.new) (name.now ∷ []))
        (OnFile file name.now (λ bytes. Never)) reply.status (bytes_of reply.text)) }
{
    match shelf.read_all(alloc, name, file.limit()) {
        Ok(bytes) => Ok(bytes),
        Err(ShelfFault::Failed) => Err(Reply::line(Status::ReadFault, file.read_fault_line())),
        Err(ShelfFault::TooLong) => Err(Reply::line(Status::TooLong, file.too_long_line())),
        Err(ShelfFault::Memory) => Err(Reply::no_memory()),
    }
}

/// The accepted model in the file of this name.
pub fn model_file<S: Shelf>(alloc: Global, shelf: &mut S, name: &str) -> Result<Accepted, Reply>
    ensures shelf { StaysShelf S.told S.faults S.taken S.steady shelf.old shelf.new }
    ensures model { IfOk result (λ model.
        TookModel (seen S.told S.faults S.taken S.asked shelf.old shelf.new) (of_file name.now)
        (accepted_data model)) }
    ensures refused { IfErr result (λ reply.
        Ends (in_call (seen S.told S.faults S.taken S.asked shelf.old shelf.new) (name.now ∷ []))
        (OnFile File.Model name.now (λ bytes. OnModel bytes (λ d. Never)))
        reply.status (bytes_of reply.text)) }
{
    let bytes = read(alloc, shelf, File::Model, name)?;
    accepted_model(alloc, bytes.as_slice())
}

/// A shipped model, for which the shelf is left as it is.
fn shipped_model<S: Shelf>(alloc: Global, _shelf: &mut S, model: Shipped) -> Result<Accepted, Reply>
    ensures shelf { StaysShelf S.told S.faults S.taken S.steady _shelf.old _shelf.new }
    ensures model { IfOk result (λ accepted.
        TookModel (seen S.told S.faults S.taken S.asked _shelf.old _shelf.new) (shipped model)
        (accepted_data accepted)) }
    ensures refused { IfErr result (λ reply.
        Ends (in_call (seen S.told S.faults S.taken S.asked _shelf.old _shelf.new) [])
        (OnModelWord (shipped model) (λ d. Never)) reply.status (bytes_of reply.text)) }
{
    match model.build(alloc) {
        Ok(accepted) => Ok(accepted),
        Err(_) => Err(Reply::no_memory()),
    }
}

/// The list for a model in the file of this name.
pub fn list_file<S: Shelf>(
    alloc: Global,
    shelf: &mut S,
    model: &Accepted,
    name: &str,
) -> Result<Requests, Reply>
    ensures shelf { StaysShelf S.told S.faults S.taken S.steady shelf.old shelf.new }
    ensures text { IfOk result (λ list. (bytes : List ℕ)
        × Took (seen S.told S.faults S.taken S.asked shelf.old shelf.new) File.Requests name.now bytes
        × IsRequests (accepted_data model.now) bytes list) }
    ensures list { IfOk result (IsList (accepted_data model.now)) }
    ensures refused { IfErr result (λ reply.
        Ends (in_call (seen S.told S.faults S.taken S.asked shelf.old shelf.new) (name.now ∷ []))
        (OnFile File.Requests name.now
        (λ bytes. OnRequests (accepted_data model.now) bytes (λ list. Never)))
        reply.status (bytes_of reply.text)) }
{
    let bytes = read(alloc, shelf, File::Requests, name)?;
    request_list(alloc, model, bytes.as_slice())
}

/// The model that a word names: a shipped one, or the accepted one in a file.
pub fn model_of<S: Shelf>(
    alloc: Global,
    shelf: &mut S,
    word: ModelWord<'_>,
) -> Result<Accepted, Reply>
    ensures shelf { StaysShelf S.told S.faults S.taken S.steady shelf.old shelf.new }
    ensures model { IfOk result (λ model.
        TookModel (seen S.told S.faults S.taken S.asked shelf.old shelf.new) (model_asked word.entry)
        (accepted_data model)) }
    ensures refused { IfErr result (λ reply.
        Ends (in_call (seen S.told S.faults S.taken S.asked shelf.old shelf.new)
        (model_files (model_asked word.entry))) (OnModelWord (model_asked word.entry) (λ d. Never))
        reply.status (bytes_of reply.text)) }
{
    match word {
        ModelWord::File(name) => model_file(alloc, shelf, name),
        ModelWord::Shipped(model) => shipped_model(alloc, shelf, model),
    }
}

/// A model, and a list for it.
#[derive(Debug, Drop)]
pub struct Question {
    pub model: Accepted,
    pub list: Requests,
}

/// The model that a word names and the list in the file of a name, of which many commands begin.
pub fn model_and_list<S: Shelf>(
    alloc: Global,
    shelf: &mut S,
    model: ModelWord<'_>,
    requests: &str,
) -> Result<Question, Reply>
    ensures shelf { StaysShelf S.told S.faults S.taken S.steady shelf.old shelf.new }
    ensures both { IfOk result (λ question.
        TookBoth (seen S.told S.faults S.taken S.asked shelf.old shelf.new) (model_asked model.entry)
        requests.now (accepted_data question.model) question.list) }
    ensures list { IfOk result (λ question. IsList (accepted_data question.model) question.list) }
    ensures refused { IfErr result (λ reply.
        Ends (in_call (seen S.told S.faults S.taken S.asked shelf.old shelf.new)
        (model_files (model_asked model.entry) ++ requests.now ∷ []))
        (OnModelAndList (model_asked model.entry) requests.now (λ d list. Never))
        reply.status (bytes_of reply.text)) }
{
    let model = model_of(alloc, shelf, model)?;
    let list = list_file(alloc, shelf, &model, requests)?;
    Ok(Question { model, list })
}
