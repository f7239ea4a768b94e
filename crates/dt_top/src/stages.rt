// What the bytes of files are: a model, a list for it, an image that matches the list, a log; and
// the problem of a list.
ghost use Rattle.std.specs.Prelude.{◌≡◌, ◌≤◌, ◌<◌, ◌^◌, length, Ok, IfOk, IfErr, OnOk};
ghost use Rattle.dt_model.specs.Accepted.{accepted_data};
ghost use Rattle.dt_modeltext.specs.Read.{IsModelText};
ghost use Rattle.dt_request.specs.Lists.{IsList};
ghost use Rattle.dt_image.specs.Images.{IsImage};
ghost use Rattle.dt_log.specs.Read.{reading as log_in};
ghost use Rattle.dt_encode.specs.Encoding.{TakesImages, HasChoices, IsEncoded};
ghost use Rattle.dt_table.specs.Table.{table};
ghost use Rattle.dt_top.specs.Course.{Never};
ghost use Rattle.dt_top.specs.Files.{limit_of};
ghost use Rattle.dt_top.specs.Replies.{bytes_of};
ghost use Rattle.dt_top.specs.Stages.{OnModel, IsRequests, OnRequests, IsMatching, OnImage, OnModelImage, HasProblem, OnProblem, OnLog};
ghost use Rattle.dt_image.specs.Read.{reading};
ghost use Rattle.dt_top.specs.Table.{Replies};

use crate::file::File;
use crate::reply::Reply;
use crate::status::Status;
use dt_encode::{EncodeFault, Encoded, encode_list};
use dt_image::{Image, read_image};
use dt_log::{Log, read_log};
use dt_model::Accepted;
use dt_modeltext::read_model;
use dt_request::{Requests, read_requests};
use dt_satisfy::matches;
use dt_terms::Problem;
use std::alloc::Global;

/// The accepted model that a file's bytes spell, or the refusal of the bytes.
pub fn accepted_model(alloc: Global, bytes: &[u8]) -> Result<Accepted, Reply>
    requires { length bytes.now ≤ limit_of File.Model }
    ensures model { IfOk result (λ model. IsModelText bytes.now (accepted_data model)) }
    ensures refused { IfErr result (λ reply.
        Replies (OnModel bytes.now (λ d. Never)) reply.status (bytes_of reply.text)) }
{
    match read_model(alloc, bytes) {
        Ok(model) => Ok(model),
        Err(fault) => Err(Reply::refused(alloc, File::Model, fault.line(), fault.word())),
    }
}

/// The list for a model that a file's bytes spell, or the refusal of the bytes.
pub fn request_list(alloc: Global, model: &Accepted, bytes: &[u8]) -> Result<Requests, Reply>
    requires { length bytes.now ≤ limit_of File.Requests }
    ensures text { IfOk result (IsRequests (accepted_data model.now) bytes.now) }
    ensures list { IfOk result (IsList (accepted_data model.now)) }
    ensures refused { IfErr result (λ reply.
        Replies (OnRequests (accepted_data model.now) bytes.now (λ list. Never))
        reply.status (bytes_of reply.text)) }
{
    match read_requests(alloc, model, bytes) {
        Ok(list) => Ok(list),
        Err(fault) => Err(Reply::refused(alloc, File::Requests, fault.line(), fault.word())),
    }
}

/// The image for a model that a file's bytes spell, where it matches the list, or the refusal of the
/// bytes.
pub fn matching_image(
    alloc: Global,
    model: &Accepted,
    list: &Requests,
    bytes: &[u8],
) -> Result<Image, Reply>
    requires { length bytes.now ≤ limit_of File.Image }
    ensures text { IfOk result (IsMatching (accepted_data model.now) list.now bytes.now) }
    ensures image { IfOk result (IsImage (accepted_data model.now)) }
    ensures refused { IfErr result (λ reply.
        Replies (OnImage (accepted_data model.now) list.now bytes.now (λ image. Never))
        reply.status (bytes_of reply.text)) }
{
    match read_image(alloc, model, bytes) {
        Ok(image) => {
            if !matches(model, list, &image) {
                return Err(Reply::line(Status::InputRefused, "refused image shape\n"));
            }
            Ok(image)
        }
        Err(fault) => Err(Reply::refused(alloc, File::Image, fault.line(), fault.word())),
    }
}

/// The image for a model that a file's bytes spell, or the refusal of the bytes.
pub fn model_image(alloc: Global, model: &Accepted, bytes: &[u8]) -> Result<Image, Reply>
    requires { length bytes.now ≤ limit_of File.Image }
    ensures text { IfOk result (λ image. reading (accepted_data model.now) bytes.now ≡ Ok image) }
    ensures image { IfOk result (IsImage (accepted_data model.now)) }
    ensures refused { IfErr result (λ reply.
        Replies (OnModelImage (accepted_data model.now) bytes.now (λ image. Never))
        reply.status (bytes_of reply.text)) }
{
    match read_image(alloc, model, bytes) {
        Ok(image) => Ok(image),
        Err(fault) => Err(Reply::refused(alloc, File::Image, fault.line(), fault.word())),
    }
}

/// The problem of a list for a model, with what an image is told by, or the refusal of a list that is
/// too large.
pub fn encoded_list(alloc: Global, model: &Accepted, list: &Requests) -> Result<Encoded, Reply>
    requires { IsList (accepted_data model.now) list.now }
    ensures encoded { IfOk result (IsEncoded (accepted_data model.now) list.now) }
    ensures takes { IfOk result (λ e. TakesImages (accepted_data model.now) list.now e.problem) }
    ensures choices { IfOk result (λ e. HasChoices (accepted_data model.now) list.now e.problem) }
    ensures within { OnOk result (HasProblem (accepted_data model.now) list.now) }
    ensures refused { IfErr result (λ reply.
        Replies (OnProblem (accepted_data model.now) list.now Never)
        reply.status (bytes_of reply.text)) }
{
    match encode_list(alloc, model, list) {
        Ok(encoded) => Ok(encoded),
        Err(EncodeFault::TooLarge { what, number }) => Err(Reply::too_large(alloc, what, number)),
        Err(EncodeFault::Memory) => Err(Reply::no_memory()),
    }
}

/// The problem of a list for a model, or the refusal of a list that is too large.
pub fn list_problem(alloc: Global, model: &Accepted, list: &Requests) -> Result<Problem, Reply>
    requires { IsList (accepted_data model.now) list.now }
    ensures problem { IfOk result (λ p. p ≡ table (accepted_data model.now) list.now) }
    ensures takes { IfOk result (TakesImages (accepted_data model.now) list.now) }
    ensures choices { IfOk result (HasChoices (accepted_data model.now) list.now) }
    ensures within { OnOk result (HasProblem (accepted_data model.now) list.now) }
    ensures refused { IfErr result (λ reply.
        Replies (OnProblem (accepted_data model.now) list.now Never)
        reply.status (bytes_of reply.text)) }
{
    let encoded = encoded_list(alloc, model, list)?;
    Ok(encoded.problem)
}

/// The log that a file's bytes spell, or the refusal of the bytes.
pub fn problem_log(alloc: Global, bytes: &[u8]) -> Result<Log, Reply>
    requires { length bytes.now ≤ limit_of File.Log }
    ensures text { IfOk result (λ log. log_in bytes.now ≡ Ok (log.claim, log.lines)) }
    ensures few { IfOk result (λ log. length log.lines < 2 ^ 32) }
    ensures refused { IfErr result (λ reply. Replies (OnLog bytes.now (λ log. Never))
        reply.status (bytes_of reply.text)) }
{
    match read_log(alloc, bytes) {
        Ok(log) => Ok(log),
        Err(fault) => match fault.item() {
            Some(item) => Err(Reply::no_tree(alloc, item)),
            None => Err(Reply::refused(alloc, File::Log, fault.line(), fault.word())),
        },
    }
}
