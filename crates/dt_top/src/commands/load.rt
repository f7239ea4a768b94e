// `load`: how a search with a fixed number of splits ends on a generated list of the shipped model
// of Sv39.
ghost use Rattle.std.specs.Prelude.{◌≡◌, ◌∷◌, ◌++◌, [], true, map, IfOk, IfErr, OnOk};
ghost use Rattle.std.specs.Option.{option_map};
ghost use Rattle.std.specs.String.{string_bytes};
ghost use Rattle.dt_encode.specs.Encoding.{TakesImages, IsEncoded};
ghost use Rattle.dt_encode.specs.declared.fault.EncodeFault.TheVariants as faults;
ghost use Rattle.dt_lex.specs.Numeral.{decimal};
ghost use Rattle.dt_lex.specs.Printing.{row_text};
ghost use Rattle.dt_make.specs.Made.{can_be_made as has_list, made};
ghost use Rattle.dt_model.specs.Accepted.{accepted_data};
ghost use Rattle.dt_request.specs.Lists.{IsList};
ghost use Rattle.dt_sv39.specs.Shipped.{sv39_data};
ghost use Rattle.dt_table.specs.Table.{table};
ghost use Rattle.dt_terms.specs.Values.{IsAssignment, solves};
ghost use Rattle.dt_top.specs.Replies.{bytes_of};
ghost use Rattle.dt_top.specs.Table.{Replies};
ghost use Rattle.dt_top.specs.commands.Jobs.{asked, load as load_job};
ghost use Rattle.dt_top.specs.commands.Load.{load_of, load_asked, IsLoadEnd, end_status, end_word, end_words, load_text, Loading};

use crate::commands::Job;
use crate::reply::Reply;
use crate::status::Status;
use crate::words::word_number;
use dt_bits::NoMemory;
use dt_encode::{EncodeFault, Encoded, encode_list, image_in};
use dt_lex::{Piece, push_row};
use dt_make::{can_be_made, make_requests};
use dt_model::Accepted;
use dt_place::search_list;
use dt_request::Requests;
use dt_sets::Triple;
use dt_solve::Outcome;
use dt_sv39::sv39_model;
use dt_terms::Problem;
use std::alloc::Global;

// How many splits the search may take.
const MOST_SPLITS: u64 = 10_000;

/// The word of `load`: how many accesses the list has, 1 to 64.
#[derive(Clone, Copy)]
pub struct LoadJob {
    pub n: u64,
}

/// How the search ended.
#[derive(Clone, Copy, Debug, PartialEq, Eq)]
pub enum LoadEnd {
    /// With an image of so many words.
    Image { words: u64 },
    /// No image meets the list.
    Impossible,
    /// After as many splits as it may take.
    Budget,
}

impl LoadEnd {
    fn status(self) -> Status
        ensures { result ≡ end_status self }
    {
        match self {
            LoadEnd::Image { .. } => Status::Good,
            LoadEnd::Impossible => Status::No,
            LoadEnd::Budget => Status::Spent,
        }
    }

    fn word(self) -> &'static str
        ensures { result.now ≡ end_word self }
    {
        match self {
            LoadEnd::Image { .. } => "image",
            LoadEnd::Impossible => "impossible",
            LoadEnd::Budget => "budget",
        }
    }

    fn words(self) -> u64
        ensures { result ≡ end_words self }
    {
        match self {
            LoadEnd::Image { words } => words,
            LoadEnd::Impossible | LoadEnd::Budget => 0,
        }
    }
}

// What the words after the command's name ask for.
fn form(words: &[String]) -> Option<LoadJob>
    ensures { option_map load_asked result ≡ load_of (map string_bytes words.now) }
{
    match words {
        [count] => counted(count.as_str()),
        _ => None,
    }
}

fn counted(count: &str) -> Option<LoadJob>
    ensures { option_map load_asked result ≡ load_of (count.now ∷ []) }
{
    match word_number(count) {
        Some(n) if can_be_made(n) => Some(LoadJob { n }),
        _ => None,
    }
}

/// The job that the words after the command's name ask for.
pub fn job(words: &[String]) -> Option<Job<'_>>
    ensures { option_map asked result
        ≡ option_map (λ job. load_job job) (load_of (map string_bytes words.now)) }
{
    match form(words) {
        Some(job) => Some(Job::Load(job)),
        None => None,
    }
}

#[tactic(auto, using(crate::proofs::Loaded::image_end))]
// The end with the image that these numbers tell, which solve the problem of the list.
fn found(
    alloc: Global,
    model: &Accepted,
    list: &Requests,
    encoded: &Encoded,
    numbers: &[u128],
) -> Result<LoadEnd, NoMemory>
    requires list { IsList (accepted_data model.now) list.now }
    requires encoded { IsEncoded (accepted_data model.now) list.now encoded.now }
    requires assignment { IsAssignment (table (accepted_data model.now) list.now).terms numbers.now }
    requires solves { solves (table (accepted_data model.now) list.now) numbers.now ≡ true }
    ensures { IfOk result (IsLoadEnd (accepted_data model.now) list.now) }
{
    let image = image_in(alloc, model, list, encoded, numbers)?;
    Ok(LoadEnd::Image {
        words: image.memory.words.len() as u64,
    })
}

// How the search ends on the problem of the list, of which layouts are tried that this seed draws.
fn searched(
    alloc: Global,
    model: &Accepted,
    list: &Requests,
    problem: &Problem,
    encoded: &Encoded,
    seed: u64,
) -> Result<LoadEnd, NoMemory>
    requires list { IsList (accepted_data model.now) list.now }
    requires problem { problem.now ≡ table (accepted_data model.now) list.now }
    requires encoded { IsEncoded (accepted_data model.now) list.now encoded.now }
    requires takes { TakesImages (accepted_data model.now) list.now problem.now }
    ensures { IfOk result (IsLoadEnd (accepted_data model.now) list.now) }
{
    let _ = &problem.terms;
    match search_list::<Triple>(alloc, model, list, problem, MOST_SPLITS, seed)? {
        Outcome::Found(numbers) => found(alloc, model, list, encoded, numbers.as_slice()),
        Outcome::Refuted(_log) => Ok(LoadEnd::Impossible),
        Outcome::Spent(_log) => Ok(LoadEnd::Budget),
    }
}

// The list of so many accesses.
fn made_list(alloc: Global, model: &Accepted, n: u64) -> Result<Requests, NoMemory>
    requires model { accepted_data model.now ≡ sv39_data }
    requires some { has_list n ≡ true }
    ensures list { IfOk result (λ list. list ≡ made n) }
    ensures of_model { IfOk result (IsList (accepted_data model.now)) }
{
    match make_requests(alloc, model, n) {
        Ok(list) => Ok(list),
        Err(_) => Err(NoMemory),
    }
}

#[tactic(auto, using(crate::proofs::Loaded::fails_for_memory))]
// How the search ends on the list of so many accesses, which is never too large.
fn ended(alloc: Global, n: u64) -> Result<LoadEnd, EncodeFault>
    requires { has_list n ≡ true }
    ensures end { IfOk result (IsLoadEnd sv39_data (made n)) }
    ensures cause { IfErr result (λ e. e ≡ faults.Memory) }
{
    let model = sv39_model(alloc)?;
    let list = made_list(alloc, &model, n)?;
    let encoded = encode_list(alloc, &model, &list)?;
    let problem = &encoded.problem;
    Ok(searched(alloc, &model, &list, problem, &encoded, n)?)
}

// Appends a line of a word and a number.
fn push_count(out: &mut Vec<u8>, word: &[u8], n: u64) -> Result<(), NoMemory>
    ensures { OnOk result (out.new.items ≡ out.old.items ++ row_text (word.now ∷ decimal n ∷ [])) }
{
    push_row(out, word, &[Piece::Decimal(u128::from(n))])?;
    Ok(())
}

// The four lines that tell how the search ended.
fn end_lines(alloc: Global, n: u64, end: LoadEnd) -> Result<Vec<u8>, NoMemory>
    ensures { IfOk result (λ text. text.items ≡ load_text n end) }
{
    let mut out = Vec::new(alloc);
    push_count(&mut out, b"load", n)?;
    push_count(&mut out, b"accesses", n)?;
    let word = end.word().as_bytes();
    push_row(&mut out, b"answer", &[Piece::Word(word)])?;
    push_count(&mut out, b"words", end.words())?;
    Ok(out)
}

#[tactic(auto, using(crate::proofs::Loaded::replies_loaded))]
/// The answer: how the search for an image that meets the generated list ended, with at most 10,000
/// splits and the seed N, and how many words the image has.
pub fn load_reply(alloc: Global, n: u64) -> Reply
    requires { has_list n ≡ true }
    ensures { Replies (Loading (record { n = n })) result.status (bytes_of result.text) }
{
    let Ok(end) = ended(alloc, n) else {
        return Reply::no_memory();
    };
    match end_lines(alloc, n, end) {
        Ok(text) => Reply::made(end.status(), text),
        Err(_) => Reply::no_memory(),
    }
}
