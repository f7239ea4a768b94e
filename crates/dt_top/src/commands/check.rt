// `check`: the log of a file, checked against the problem of a list.
ghost use Rattle.std.specs.Prelude.{◌≡◌, ◌≤◌, ◌<◌, ◌^◌, ◌∷◌, [], length, map, IfOk};
ghost use Rattle.std.specs.Option.{option_map};
ghost use Rattle.std.specs.String.{string_bytes};
ghost use Rattle.dt_lex.specs.Numeral.{decimal};
ghost use Rattle.dt_lex.specs.Printing.{row_text};
ghost use Rattle.dt_model.specs.Accepted.{accepted_data};
ghost use Rattle.dt_request.specs.Lists.{IsList};
ghost use Rattle.dt_top.specs.Course.{OnFile};
ghost use Rattle.dt_top.specs.Files.{limit_of};
ghost use Rattle.dt_top.specs.Lines.{item_line};
ghost use Rattle.dt_top.specs.Replies.{bytes_of};
ghost use Rattle.dt_top.specs.Seen.{seen, StaysShelf};
ghost use Rattle.dt_top.specs.Table.{in_call, Ends, Replies};
ghost use Rattle.dt_top.specs.commands.Check.{check_of, check_asked, check_files, Checking, CheckingList, CheckingBytes, JudgingLog};

use crate::file::File;
use crate::models::{ModelWord, model_word};
use crate::reading::{model_and_list, read};
use crate::reply::Reply;
use crate::stages::{list_problem, problem_log};
use crate::status::Status;
use crate::words::is_file_name;
use dt_bits::NoMemory;
use dt_check::{Cause, Verdict, check_log};
use dt_edge::Shelf;
use dt_lex::{Piece, push_row};
use dt_log::Log;
use dt_model::Accepted;
use dt_request::Requests;
use dt_sets::Triple;
use dt_terms::Problem;
use std::alloc::Global;

/// The words of `check`: a model, and two names of files.
#[derive(Clone, Copy)]
pub struct CheckJob<'a> {
    pub model: ModelWord<'a>,
    pub requests: &'a str,
    pub log: &'a str,
}

/// What the words after the command's name ask for.
pub fn form(words: &[String]) -> Option<CheckJob<'_>>
    ensures { option_map check_asked result ≡ check_of (map string_bytes words.now) }
{
    match words {
        [model, requests, log] => named(model.as_str(), requests.as_str(), log.as_str()),
        _ => None,
    }
}

fn named<'a>(model: &'a str, requests: &'a str, log: &'a str) -> Option<CheckJob<'a>>
    ensures { option_map check_asked result ≡ check_of (model.now ∷ requests.now ∷ log.now ∷ []) }
{
    if !is_file_name(requests) || !is_file_name(log) {
        return None;
    }
    match model_word(model) {
        Some(model) => Some(CheckJob {
            model,
            requests,
            log,
        }),
        None => None,
    }
}

// A line of a word and a number.
fn count_line(alloc: Global, word: &[u8], n: u64) -> Result<Vec<u8>, NoMemory>
    ensures { IfOk result (λ text. text.items ≡ row_text (word.now ∷ decimal n ∷ [])) }
{
    let mut out = Vec::new(alloc);
    push_row(&mut out, word, &[Piece::Decimal(u128::from(n))])?;
    Ok(out)
}

// The line that names the first item with a cause, counted from 1, and the first of its causes.
fn refused_line(alloc: Global, item: u32, cause: Cause) -> Result<Vec<u8>, NoMemory>
    ensures { IfOk result (λ text. text.items ≡ item_line item cause) }
{
    let mut out = Vec::new(alloc);
    let cause = cause.word().as_bytes();
    push_row(
        &mut out,
        b"refused",
        &[
            Piece::Word(b"item"),
            Piece::Decimal(u128::from(item)),
            Piece::Word(cause),
        ],
    )?;
    Ok(out)
}

// The answer about a log.
fn judged(alloc: Global, problem: &Problem, log: &Log) -> Result<Reply, NoMemory>
    requires { length log.now.lines < 2 ^ 32 }
    ensures { IfOk result (λ reply. Replies (JudgingLog problem.now (log.now.claim, log.now.lines))
        reply.status (bytes_of reply.text)) }
{
    match check_log::<Triple>(alloc, problem, log)? {
        Verdict::Closed(splits) => {
            let text = count_line(alloc, b"closed", splits)?;
            Ok(Reply::made(Status::Good, text))
        }
        Verdict::Unfinished(splits) => {
            let text = count_line(alloc, b"open", splits)?;
            Ok(Reply::made(Status::Spent, text))
        }
        Verdict::Refused { item, cause } => {
            let text = refused_line(alloc, item, cause)?;
            Ok(Reply::made(Status::No, text))
        }
    }
}

/// The answer about the log that a file's bytes spell, or the refusal of the bytes.
pub fn log_reply(alloc: Global, problem: &Problem, bytes: &[u8]) -> Reply
    requires { length bytes.now ≤ limit_of File.Log }
    ensures { Replies (CheckingBytes problem.now bytes.now) result.status (bytes_of result.text) }
{
    let log = match problem_log(alloc, bytes) {
        Ok(log) => log,
        Err(reply) => return reply,
    };
    match judged(alloc, problem, &log) {
        Ok(reply) => reply,
        Err(_) => Reply::no_memory(),
    }
}

// Reads the log, and answers.
fn check_file<S: Shelf>(alloc: Global, shelf: &mut S, problem: &Problem, name: &str) -> Reply
    ensures shelf { StaysShelf S.told S.faults S.taken S.steady shelf.old shelf.new }
    ensures ends { Ends (in_call (seen S.told S.faults S.taken S.asked shelf.old shelf.new)
        (name.now ∷ [])) (OnFile File.Log name.now (CheckingBytes problem.now))
        result.status (bytes_of result.text) }
{
    match read(alloc, shelf, File::Log, name) {
        Ok(bytes) => log_reply(alloc, problem, bytes.as_slice()),
        Err(reply) => reply,
    }
}

// Finds the problem of the list, reads the log, and answers.
fn check_list<S: Shelf>(
    alloc: Global,
    shelf: &mut S,
    model: &Accepted,
    list: &Requests,
    name: &str,
) -> Reply
    requires list { IsList (accepted_data model.now) list.now }
    ensures shelf { StaysShelf S.told S.faults S.taken S.steady shelf.old shelf.new }
    ensures ends { Ends (in_call (seen S.told S.faults S.taken S.asked shelf.old shelf.new)
        (name.now ∷ [])) (CheckingList name.now (accepted_data model.now) list.now)
        result.status (bytes_of result.text) }
{
    match list_problem(alloc, model, list) {
        Ok(problem) => check_file(alloc, shelf, &problem, name),
        Err(reply) => reply,
    }
}

/// Reads the model, the list and the log, and answers.
pub fn perform<S: Shelf>(alloc: Global, shelf: &mut S, job: CheckJob<'_>) -> Reply
    ensures shelf { StaysShelf S.told S.faults S.taken S.steady shelf.old shelf.new }
    ensures ends { Ends (in_call (seen S.told S.faults S.taken S.asked shelf.old shelf.new)
        (check_files (check_asked job.entry))) (Checking (check_asked job.entry))
        result.status (bytes_of result.text) }
{
    match model_and_list(alloc, shelf, job.model, job.requests) {
        Ok(question) => check_list(alloc, shelf, &question.model, &question.list, job.log),
        Err(reply) => reply,
    }
}
