// `model`: a shipped model, printed.
ghost use Rattle.std.specs.Prelude.{◌≡◌, map, IfOk};
ghost use Rattle.std.specs.Option.{option_map};
ghost use Rattle.std.specs.String.{string_bytes};
ghost use Rattle.dt_modeltext.specs.Print.{printed};
ghost use Rattle.dt_top.specs.Models.{shipped_data};
ghost use Rattle.dt_top.specs.Replies.{bytes_of};
ghost use Rattle.dt_top.specs.Table.{Replies};
ghost use Rattle.dt_top.specs.commands.Jobs.{asked, model as print_job};
ghost use Rattle.dt_top.specs.commands.Model.{print_of, print_asked, Printing};

use crate::commands::Job;
use crate::models::Shipped;
use crate::reply::Reply;
use crate::status::Status;
use dt_bits::NoMemory;
use dt_modeltext::print_model;
use std::alloc::Global;

/// The word of `model`: a shipped model.
#[derive(Clone, Copy)]
pub struct ModelJob {
    pub model: Shipped,
}

// What the words after the command's name ask for.
fn form(words: &[String]) -> Option<ModelJob>
    ensures { option_map print_asked result ≡ print_of (map string_bytes words.now) }
{
    match words {
        [model] => match Shipped::of_word(model.as_str()) {
            Some(model) => Some(ModelJob { model }),
            None => None,
        },
        _ => None,
    }
}

/// The job that the words after the command's name ask for.
pub fn job(words: &[String]) -> Option<Job<'_>>
    ensures { option_map asked result
        ≡ option_map (λ job. print_job job) (print_of (map string_bytes words.now)) }
{
    match form(words) {
        Some(job) => Some(Job::Model(job)),
        None => None,
    }
}

// The text of the model.
fn model_text(alloc: Global, model: Shipped) -> Result<Vec<u8>, NoMemory>
    ensures { IfOk result (λ text. text.items ≡ printed (shipped_data model)) }
{
    let accepted = model.build(alloc)?;
    print_model(alloc, &accepted)
}

#[tactic(auto, using(crate::proofs::Commanded::replies_printed))]
/// The answer: the one text of the model.
pub fn print_reply(alloc: Global, model: Shipped) -> Reply
    ensures { Replies (Printing (record { model = model })) result.status (bytes_of result.text) }
{
    match model_text(alloc, model) {
        Ok(text) => Reply::made(Status::Good, text),
        Err(_) => Reply::no_memory(),
    }
}
