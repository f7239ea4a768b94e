// `walk`: the walks of an image of a shipped model.
ghost use Rattle.std.specs.Prelude.{◌≡◌, ◌≤◌, ◌∷◌, [], length, map, IfOk, IfErr};
ghost use Rattle.std.specs.Option.{option_map};
ghost use Rattle.std.specs.String.{string_bytes};
ghost use Rattle.dt_image.specs.Images.{IsImage};
ghost use Rattle.dt_model.specs.Accepted.{accepted_data};
ghost use Rattle.dt_top.specs.Course.{OnFile};
ghost use Rattle.dt_top.specs.Files.{limit_of};
ghost use Rattle.dt_top.specs.Models.{shipped_data};
ghost use Rattle.dt_top.specs.Replies.{bytes_of};
ghost use Rattle.dt_top.specs.Seen.{seen, StaysShelf};
ghost use Rattle.dt_top.specs.Table.{in_call, Ends, Replies};
ghost use Rattle.dt_top.specs.commands.Walk.{walk_of, walk_asked, walk_files, WalkingBytes, Walking};

use crate::file::File;
use crate::models::Shipped;
use crate::reading::read;
use crate::reply::Reply;
use crate::stages::model_image;
use crate::status::Status;
use crate::words::is_file_name;
use dt_edge::Shelf;
use dt_model::Accepted;
use dt_walktext::print_walks;
use std::alloc::Global;

/// The words of `walk`: a shipped model, and the name of a file.
#[derive(Clone, Copy)]
pub struct WalkJob<'a> {
    pub model: Shipped,
    pub image: &'a str,
}

/// What the words after the command's name ask for.
pub fn form(words: &[String]) -> Option<WalkJob<'_>>
    ensures { option_map walk_asked result ≡ walk_of (map string_bytes words.now) }
{
    match words {
        [model, image] => named(model.as_str(), image.as_str()),
        _ => None,
    }
}

fn named<'a>(model: &str, image: &'a str) -> Option<WalkJob<'a>>
    ensures { option_map walk_asked result ≡ walk_of (model.now ∷ image.now ∷ []) }
{
    if !is_file_name(image) {
        return None;
    }
    match Shipped::of_word(model) {
        Some(model) => Some(WalkJob { model, image }),
        None => None,
    }
}

#[tactic(auto, using(crate::proofs::Commanded::replies_walks, crate::proofs::Commanded::replies_no_walks))]
/// The answer about the image for a model that a file's bytes spell, or the refusal of the bytes:
/// the walk of each access, whether it is legal or not.
pub fn walk_reply(alloc: Global, model: &Accepted, bytes: &[u8]) -> Reply
    requires { length bytes.now ≤ limit_of File.Image }
    ensures { Replies (WalkingBytes (accepted_data model.now) bytes.now) result.status (bytes_of result.text) }
{
    let image = match model_image(alloc, model, bytes) {
        Ok(image) => image,
        Err(reply) => return reply,
    };
    match print_walks(alloc, model, &image) {
        Ok(text) => Reply::made(Status::Good, text),
        Err(_) => Reply::no_memory(),
    }
}

// Reads the image, and answers.
fn walk_image<S: Shelf>(alloc: Global, shelf: &mut S, model: &Accepted, name: &str) -> Reply
    ensures shelf { StaysShelf S.told S.faults S.taken S.steady shelf.old shelf.new }
    ensures ends { Ends (in_call (seen S.told S.faults S.taken S.asked shelf.old shelf.new)
        (name.now ∷ [])) (OnFile File.Image name.now (WalkingBytes (accepted_data model.now)))
        result.status (bytes_of result.text) }
{
    match read(alloc, shelf, File::Image, name) {
        Ok(bytes) => walk_reply(alloc, model, bytes.as_slice()),
        Err(reply) => reply,
    }
}

/// Builds the model, reads the image, and answers.
pub fn perform<S: Shelf>(alloc: Global, shelf: &mut S, job: WalkJob<'_>) -> Reply
    ensures shelf { StaysShelf S.told S.faults S.taken S.steady shelf.old shelf.new }
    ensures ends { Ends (in_call (seen S.told S.faults S.taken S.asked shelf.old shelf.new)
        (walk_files (walk_asked job.entry))) (Walking (walk_asked job.entry))
        result.status (bytes_of result.text) }
{
    match job.model.build(alloc) {
        Ok(model) => walk_image(alloc, shelf, &model, job.image),
        Err(_) => Reply::no_memory(),
    }
}
