// The commands.
ghost use Rattle.std.specs.Prelude.{◌≡◌, map};
ghost use Rattle.std.specs.Option.{option_map};
ghost use Rattle.std.specs.String.{string_bytes};
ghost use Rattle.dt_top.specs.Replies.{bytes_of};
ghost use Rattle.dt_top.specs.Seen.{seen, StaysShelf};
ghost use Rattle.dt_top.specs.Table.{in_call, Ends};
ghost use Rattle.dt_top.specs.commands.Jobs.{job_of, asked, files_of, CanBeAsked, Doing};

mod check;
mod load;
mod make;
mod model;
mod replay;
mod solve;
mod walk;

use crate::reply::Reply;
pub use check::{CheckJob, log_reply};
use dt_edge::Shelf;
pub use load::{LoadEnd, LoadJob, load_reply};
pub use make::{MakeJob, make_reply};
pub use model::{ModelJob, print_reply};
pub use replay::{ReplayJob, image_reply};
pub use solve::{SolveJob, solve_reply};
use std::alloc::Global;
pub use walk::{WalkJob, walk_reply};

/// A command with its words.
#[derive(Clone, Copy)]
pub enum Job<'a> {
    /// `solve` a list.
    Solve(SolveJob<'a>),
    /// `check` of a log.
    Check(CheckJob<'a>),
    /// `replay` of an image.
    Replay(ReplayJob<'a>),
    /// `walk` of an image.
    Walk(WalkJob<'a>),
    /// `model`, which prints one.
    Model(ModelJob),
    /// `make`, which prints a generated list.
    Make(MakeJob),
    /// `load`, which searches for an image of a generated list.
    Load(LoadJob),
}

impl<'a> Job<'a> {
    /// The job that the words ask for, where they have the form of one. It takes no memory.
    pub fn parse(words: &'a [String]) -> Option<Job<'a>>
        ensures { option_map asked result ≡ job_of (map string_bytes words.now) }
    {
        match words {
            [command, words @ ..] => match command.as_str() {
                "solve" => solve::form(words).map(Job::Solve),
                "check" => check::form(words).map(Job::Check),
                "replay" => replay::form(words).map(Job::Replay),
                "walk" => walk::form(words).map(Job::Walk),
                "model" => model::job(words),
                "make" => make::job(words),
                "load" => load::job(words),
                _ => None,
            },
            [] => None,
        }
    }
}

/// Does a job: reads its files, and makes the reply.
pub fn perform<S: Shelf>(alloc: Global, shelf: &mut S, job: Job<'_>) -> Reply
    requires { CanBeAsked (asked job) }
    ensures shelf { StaysShelf S.told S.faults S.taken S.steady shelf.old shelf.new }
    ensures ends { Ends (in_call (seen S.told S.faults S.taken S.asked shelf.old shelf.new)
        (files_of (asked job.entry))) (Doing (asked job.entry)) result.status (bytes_of result.text) }
{
    match job {
        Job::Solve(job) => solve::perform(alloc, shelf, job),
        Job::Check(job) => check::perform(alloc, shelf, job),
        Job::Replay(job) => replay::perform(alloc, shelf, job),
        Job::Walk(job) => walk::perform(alloc, shelf, job),
        Job::Model(job) => print_reply(alloc, job.model),
        Job::Make(job) => make_reply(alloc, job.n),
        Job::Load(job) => load_reply(alloc, job.n),
    }
}
