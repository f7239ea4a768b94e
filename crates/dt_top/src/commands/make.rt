// `make`: a generated list of the shipped model of Sv39, printed.
ghost use Rattle.std.specs.Prelude.{◌≡◌, ◌∷◌, [], true, map, IfOk, IfErr};
ghost use Rattle.std.specs.Option.{option_map};
ghost use Rattle.std.specs.String.{string_bytes};
ghost use Rattle.dt_make.specs.Made.{can_be_made as has_list};
ghost use Rattle.dt_make.specs.declared.fault.MakeFault.TheVariants as faults;
ghost use Rattle.dt_top.specs.Replies.{bytes_of};
ghost use Rattle.dt_top.specs.Table.{Replies};
ghost use Rattle.dt_top.specs.commands.Jobs.{asked, make as make_job};
ghost use Rattle.dt_top.specs.commands.Make.{make_of, make_asked, made_text, Making};

use crate::commands::Job;
use crate::reply::Reply;
use crate::status::Status;
use crate::words::word_number;
use dt_make::{MakeFault, can_be_made, make_requests};
use dt_request::print_requests;
use dt_sv39::sv39_model;
use std::alloc::Global;

/// The word of `make`: how many accesses the list has, 1 to 64.
#[derive(Clone, Copy)]
pub struct MakeJob {
    pub n: u64,
}

// What the words after the command's name ask for.
fn form(words: &[String]) -> Option<MakeJob>
    ensures { option_map make_asked result ≡ make_of (map string_bytes words.now) }
{
    match words {
        [count] => counted(count.as_str()),
        _ => None,
    }
}

fn counted(count: &str) -> Option<MakeJob>
    ensures { option_map make_asked result ≡ make_of (count.now ∷ []) }
{
    match word_number(count) {
        Some(n) if can_be_made(n) => Some(MakeJob { n }),
        _ => None,
    }
}

/// The job that the words after the command's name ask for.
pub fn job(words: &[String]) -> Option<Job<'_>>
    ensures { option_map asked result
        ≡ option_map (λ job. make_job job) (make_of (map string_bytes words.now)) }
{
    match form(words) {
        Some(job) => Some(Job::Make(job)),
        None => None,
    }
}

// The text of the list.
fn list_text(alloc: Global, n: u64) -> Result<Vec<u8>, MakeFault>
    requires { has_list n ≡ true }
    ensures text { IfOk result (λ text. text.items ≡ made_text n) }
    ensures cause { IfErr result (λ e. e ≡ faults.Memory) }
{
    let model = sv39_model(alloc)?;
    let list = make_requests(alloc, &model, n)?;
    Ok(print_requests(alloc, &model, &list)?)
}

#[tactic(auto, using(crate::proofs::Commanded::replies_made))]
/// The answer: the one text of the list.
pub fn make_reply(alloc: Global, n: u64) -> Reply
    requires { has_list n ≡ true }
    ensures { Replies (Making (record { n = n })) result.status (bytes_of result.text) }
{
    match list_text(alloc, n) {
        Ok(text) => Reply::made(Status::Good, text),
        Err(_) => Reply::no_memory(),
    }
}
