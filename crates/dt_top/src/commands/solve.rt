// `solve`: an image that meets a list, a refutation, or the record of a search.
ghost use Rattle.std.specs.Prelude.{◌≡◌, ◌∷◌, [], true, map, IfOk};
ghost use Rattle.std.specs.Option.{option_map};
ghost use Rattle.std.specs.String.{string_bytes};
ghost use Rattle.dt_model.specs.Accepted.{accepted_data};
ghost use Rattle.dt_request.specs.Lists.{IsList};
ghost use Rattle.dt_encode.specs.Encoding.{TakesImages, HasChoices, IsEncoded};
ghost use Rattle.dt_table.specs.Table.{table};
ghost use Rattle.dt_terms.specs.Values.{IsAssignment, solves};
ghost use Rattle.dt_top.specs.Answers.{IsStimulus};
ghost use Rattle.dt_top.specs.Replies.{bytes_of};
ghost use Rattle.dt_top.specs.Seen.{seen, StaysShelf};
ghost use Rattle.dt_top.specs.Table.{in_call, Ends, Replies};
ghost use Rattle.dt_top.specs.commands.Solve.{solve_of, solve_asked, solve_files, Solving, SolvingList, Answering};

use crate::models::{ModelWord, model_word};
use crate::reading::model_and_list;
use crate::reply::Reply;
use crate::stages::encoded_list;
use crate::status::Status;
use crate::words::{is_file_name, word_number};
use dt_bits::NoMemory;
use dt_edge::Shelf;
use dt_encode::{Encoded, image_in};
use dt_image::print_image;
use dt_log::print_log;
use dt_model::Accepted;
use dt_place::search_list;
use dt_request::Requests;
use dt_sets::Triple;
use dt_solve::Outcome;
use dt_terms::Problem;
use std::alloc::Global;

/// The words of `solve`: a model, the name of a file, how many splits the search may take, and a
/// seed.
#[derive(Clone, Copy)]
pub struct SolveJob<'a> {
    pub model: ModelWord<'a>,
    pub requests: &'a str,
    pub splits: u64,
    pub seed: u64,
}

/// What the words after the command's name ask for.
pub fn form(words: &[String]) -> Option<SolveJob<'_>>
    ensures { option_map solve_asked result ≡ solve_of (map string_bytes words.now) }
{
    match words {
        [model, requests, splits, seed] => named(
            model.as_str(),
            requests.as_str(),
            splits.as_str(),
            seed.as_str(),
        ),
        _ => None,
    }
}

fn named<'a>(model: &'a str, requests: &'a str, splits: &str, seed: &str) -> Option<SolveJob<'a>>
    ensures { option_map solve_asked result
        ≡ solve_of (model.now ∷ requests.now ∷ splits.now ∷ seed.now ∷ []) }
{
    if !is_file_name(requests) {
        return None;
    }
    let splits = match word_number(splits) {
        Some(splits) => splits,
        None => return None,
    };
    let seed = match word_number(seed) {
        Some(seed) => seed,
        None => return None,
    };
    match model_word(model) {
        Some(model) => Some(SolveJob {
            model,
            requests,
            splits,
            seed,
        }),
        None => None,
    }
}

// The text of the image that these numbers tell, which solve the problem of the list.
fn image_text(
    alloc: Global,
    model: &Accepted,
    list: &Requests,
    encoded: &Encoded,
    numbers: &[u128],
) -> Result<Vec<u8>, NoMemory>
    requires list { IsList (accepted_data model.now) list.now }
    requires encoded { IsEncoded (accepted_data model.now) list.now encoded.now }
    requires assignment { IsAssignment (table (accepted_data model.now) list.now).terms numbers.now }
    requires solves { solves (table (accepted_data model.now) list.now) numbers.now ≡ true }
    ensures { IfOk result (λ text. IsStimulus (accepted_data model.now) list.now text.items) }
{
    let image = image_in(alloc, model, list, encoded, numbers)?;
    print_image(alloc, model, &image)
}

// The answer of a search with at most so many splits on the problem of the list, of which layouts are
// tried that this seed draws.
fn searched(
    alloc: Global,
    model: &Accepted,
    list: &Requests,
    problem: &Problem,
    encoded: &Encoded,
    splits: u64,
    seed: u64,
) -> Result<Reply, NoMemory>
    requires list { IsList (accepted_data model.now) list.now }
    requires problem { problem.now ≡ table (accepted_data model.now) list.now }
    requires encoded { IsEncoded (accepted_data model.now) list.now encoded.now }
    requires takes { TakesImages (accepted_data model.now) list.now problem.now }
    requires choices { HasChoices (accepted_data model.now) list.now problem.now }
    ensures { IfOk result (λ reply. Replies (Answering (accepted_data model.now) list.now splits)
        reply.status (bytes_of reply.text)) }
{
    let _ = &problem.terms;
    match search_list::<Triple>(alloc, model, list, problem, splits, seed)? {
        Outcome::Found(numbers) => {
            let text = image_text(alloc, model, list, encoded, numbers.as_slice())?;
            Ok(Reply::made(Status::Good, text))
        }
        Outcome::Refuted(log) => {
            let text = print_log(alloc, &log)?;
            Ok(Reply::made(Status::No, text))
        }
        Outcome::Spent(log) => {
            let text = print_log(alloc, &log)?;
            Ok(Reply::made(Status::Spent, text))
        }
    }
}

/// The answer to a list, with at most so many splits: the text of an image that meets it, or that of
/// a log that refutes its problem, or that of a record of exactly so many splits. The seed fixes what
/// is drawn for the layouts that are tried. A list that is too large is refused.
pub fn solve_reply(
    alloc: Global,
    model: &Accepted,
    list: &Requests,
    splits: u64,
    seed: u64,
) -> Reply
    requires list { IsList (accepted_data model.now) list.now }
    ensures { Replies (SolvingList splits (accepted_data model.now) list.now)
        result.status (bytes_of result.text) }
{
    let encoded = match encoded_list(alloc, model, list) {
        Ok(encoded) => encoded,
        Err(reply) => return reply,
    };
    let problem = &encoded.problem;
    match searched(alloc, model, list, problem, &encoded, splits, seed) {
        Ok(reply) => reply,
        Err(_) => Reply::no_memory(),
    }
}

/// Reads the model and the list, and answers.
pub fn perform<S: Shelf>(alloc: Global, shelf: &mut S, job: SolveJob<'_>) -> Reply
    ensures shelf { StaysShelf S.told S.faults S.taken S.steady shelf.old shelf.new }
    ensures ends { Ends (in_call (seen S.told S.faults S.taken S.asked shelf.old shelf.new)
        (solve_files (solve_asked job.entry))) (Solving (solve_asked job.entry))
        result.status (bytes_of result.text) }
{
    match model_and_list(alloc, shelf, job.model, job.requests) {
        Ok(question) => {
            let (splits, seed) = (job.splits, job.seed);
            solve_reply(alloc, &question.model, &question.list, splits, seed)
        }
        Err(reply) => reply,
    }
}
