//! All that the program does, over any shelf and sink: it reads the files that its words name, and
//! answers with one text and one status. `solve` looks for an image that meets a list, `check` checks
//! a log against the problem of a list; `replay` judges the image in a file; `walk` prints the walks
//! of an image, `model` a shipped model, and `make` a generated list; `load` tells how a search of a
//! generated list ends. A command is a module of `commands`, with its definition in `specs/commands`:
//! its words, its files in order, and how it goes.
//!
//! Proved: what words and the bytes of files come to is one relation (`specs/commands`), and `run`
//! gives a status and a text only where that relation gives them for the words and the bytes that its
//! reads gave, in the order of the words, over real files too. It writes the text whole, in pieces of
//! 4096 bytes. A status other than that of a failed read or write comes only where none failed. Where
//! the shelf tells its files and no read fails, status and text are among those that words and files
//! have, unless memory ran out or a write failed; they are fixed but for the answers of `solve` and `load`.
//!
//! `solve` prints an image that meets the list; or a log that refutes the list's problem, and then no
//! image meets the list; or the record of a search that took exactly as many splits as it may. With at
//! least `2^C - 1` splits, `C` being the number of bits of all choices, the record doesn't come. `check`
//! closes a log exactly where it refutes, finds it open exactly where it is a record, and else names the
//! first item with a cause; so it closes, or finds open, what `solve` printed. `replay` says `satisfies`
//! exactly where the image meets the list, and else names the first claim that doesn't hold. A refused
//! model, list, image or log is named by its first bad line, or the line or the item that the check
//! refuses, and the cause. The calls over bytes (`Job::parse`, `accepted_model`, `request_list`,
//! `problem_log`, `log_reply`, `image_reply`) are exact for all bytes. `run_in_memory` adds that over
//! files in memory with no failing call no fault comes of its own.
//!
//! Only tested: that memory is found where there is enough. Not promised: which image or refutation is
//! printed, and how many splits it takes.
#![tactic(auto)]

mod commands;
mod file;
mod in_memory;
mod models;
mod pieces;
mod program;
mod reading;
mod reply;
mod stages;
mod status;
mod words;

pub use commands::{
    CheckJob, Job, LoadEnd, LoadJob, MakeJob, ModelJob, ReplayJob, SolveJob, WalkJob, image_reply,
    load_reply, log_reply, make_reply, print_reply, solve_reply, walk_reply,
};
pub use file::File;
pub use in_memory::run_in_memory;
pub use models::{ModelWord, Shipped};
pub use program::run;
pub use reply::{Reply, Text};
pub use stages::{
    accepted_model, list_problem, matching_image, model_image, problem_log, request_list,
};
pub use status::Status;
