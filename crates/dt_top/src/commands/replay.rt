// `replay`: the image of a file, judged.
ghost use Rattle.std.specs.Prelude.{◌≡◌, ◌≤◌, ◌∷◌, [], length, map, IfOk};
ghost use Rattle.std.specs.Option.{option_map};
ghost use Rattle.std.specs.String.{string_bytes};
ghost use Rattle.dt_model.specs.Accepted.{accepted_data};
ghost use Rattle.dt_request.specs.Lists.{IsList};
ghost use Rattle.dt_image.specs.Images.{IsImage};
ghost use Rattle.dt_satisfy.specs.Satisfies.{Matches};
ghost use Rattle.dt_top.specs.Course.{OnFile};
ghost use Rattle.dt_top.specs.Files.{limit_of};
ghost use Rattle.dt_top.specs.Lines.{breaks_line};
ghost use Rattle.dt_top.specs.Replies.{bytes_of};
ghost use Rattle.dt_top.specs.Seen.{seen, StaysShelf};
ghost use Rattle.dt_top.specs.Table.{in_call, Ends, Replies};
ghost use Rattle.dt_top.specs.commands.Replay.{replay_of, replay_asked, replay_files, Replaying, Judging, JudgingBytes};

use crate::file::File;
use crate::models::{ModelWord, model_word};
use crate::reading::{model_and_list, read};
use crate::reply::Reply;
use crate::stages::matching_image;
use crate::status::Status;
use crate::words::is_file_name;
use dt_bits::NoMemory;
use dt_edge::Shelf;
use dt_image::Image;
use dt_lex::push_decimal;
use dt_model::Accepted;
use dt_request::Requests;
use dt_satisfy::{Judged, judge};
use std::alloc::Global;

/// The words of `replay`: a model, and two names of files.
#[derive(Clone, Copy)]
pub struct ReplayJob<'a> {
    pub model: ModelWord<'a>,
    pub requests: &'a str,
    pub image: &'a str,
}

/// What the words after the command's name ask for.
pub fn form(words: &[String]) -> Option<ReplayJob<'_>>
    ensures { option_map replay_asked result ≡ replay_of (map string_bytes words.now) }
{
    match words {
        [model, requests, image] => named(model.as_str(), requests.as_str(), image.as_str()),
        _ => None,
    }
}

fn named<'a>(model: &'a str, requests: &'a str, image: &'a str) -> Option<ReplayJob<'a>>
    ensures { option_map replay_asked result
        ≡ replay_of (model.now ∷ requests.now ∷ image.now ∷ []) }
{
    if !is_file_name(requests) || !is_file_name(image) {
        return None;
    }
    match model_word(model) {
        Some(model) => Some(ReplayJob {
            model,
            requests,
            image,
        }),
        None => None,
    }
}

// The line that names the first claim that doesn't hold, counted from 1.
fn breaks_line(alloc: Global, claim: u32) -> Result<Vec<u8>, NoMemory>
    ensures { IfOk result (λ text. text.items ≡ breaks_line claim) }
{
    let mut out = Vec::from_slice(alloc, b"breaks ")?;
    push_decimal(&mut out, u128::from(claim))?;
    out.push(b'\n')?;
    Ok(out)
}

// The answer about an image that matches the list.
fn judged(
    alloc: Global,
    model: &Accepted,
    list: &Requests,
    image: &Image,
) -> Result<Reply, NoMemory>
    requires list { IsList (accepted_data model.now) list.now }
    requires image { IsImage (accepted_data model.now) image.now }
    requires matches { Matches list.now image.now }
    ensures { IfOk result (λ reply. Replies (Judging (accepted_data model.now) list.now image.now)
        reply.status (bytes_of reply.text)) }
{
    match judge(alloc, model, list, image)? {
        Judged::Satisfies => Ok(Reply::line(Status::Good, "satisfies\n")),
        Judged::Breaks(claim) => {
            let text = breaks_line(alloc, claim)?;
            Ok(Reply::made(Status::No, text))
        }
    }
}

/// The answer about the image that a file's bytes spell, or the refusal of the bytes.
pub fn image_reply(alloc: Global, model: &Accepted, list: &Requests, bytes: &[u8]) -> Reply
    requires list { IsList (accepted_data model.now) list.now }
    requires within { length bytes.now ≤ limit_of File.Image }
    ensures { Replies (JudgingBytes (accepted_data model.now) list.now bytes.now)
        result.status (bytes_of result.text) }
{
    let image = match matching_image(alloc, model, list, bytes) {
        Ok(image) => image,
        Err(reply) => return reply,
    };
    match judged(alloc, model, list, &image) {
        Ok(reply) => reply,
        Err(_) => Reply::no_memory(),
    }
}

// Reads the image, and answers.
fn replay_image<S: Shelf>(
    alloc: Global,
    shelf: &mut S,
    model: &Accepted,
    list: &Requests,
    name: &str,
) -> Reply
    requires list { IsList (accepted_data model.now) list.now }
    ensures shelf { StaysShelf S.told S.faults S.taken S.steady shelf.old shelf.new }
    ensures ends { Ends (in_call (seen S.told S.faults S.taken S.asked shelf.old shelf.new)
        (name.now ∷ []))
        (OnFile File.Image name.now (JudgingBytes (accepted_data model.now) list.now))
        result.status (bytes_of result.text) }
{
    match read(alloc, shelf, File::Image, name) {
        Ok(bytes) => image_reply(alloc, model, list, bytes.as_slice()),
        Err(reply) => reply,
    }
}

/// Reads the model, the list and the image, and answers.
pub fn perform<S: Shelf>(alloc: Global, shelf: &mut S, job: ReplayJob<'_>) -> Reply
    ensures shelf { StaysShelf S.told S.faults S.taken S.steady shelf.old shelf.new }
    ensures ends { Ends (in_call (seen S.told S.faults S.taken S.asked shelf.old shelf.new)
        (replay_files (replay_asked job.entry))) (Replaying (replay_asked job.entry))
        result.status (bytes_of result.text) }
{
    match model_and_list(alloc, shelf, job.model, job.requests) {
        Ok(question) => replay_image(alloc, shelf, &question.model, &question.list, job.image),
        Err(reply) => reply,
    }
}
