// The models that words name.
ghost use Rattle.std.specs.Prelude.{◌≡◌, IfOk};
ghost use Rattle.std.specs.Option.{option_map};
ghost use Rattle.dt_model.specs.Accepted.{accepted_data};
ghost use Rattle.dt_top.specs.Models.{shipped_of, shipped_data, model_of, model_asked};

use crate::words::is_file_name;
use dt_bits::NoMemory;
use dt_model::Accepted;
use dt_sv39::sv39_model;
use dt_sv39x4::sv39x4_model;
use std::alloc::Global;

/// A model that the program brings along.
#[derive(Clone, Copy, Debug, PartialEq, Eq)]
pub enum Shipped {
    /// `@sv39`.
    Sv39,
    /// `@sv39x4`.
    Sv39x4,
}

impl Shipped {
    /// The shipped model of a word.
    pub fn of_word(word: &str) -> Option<Shipped>
        ensures { result ≡ shipped_of word.now }
    {
        match word {
            "@sv39" => Some(Shipped::Sv39),
            "@sv39x4" => Some(Shipped::Sv39x4),
            _ => None,
        }
    }

    /// The model itself.
    pub fn build(self, alloc: Global) -> Result<Accepted, NoMemory>
        ensures { IfOk result (λ model. accepted_data model ≡ shipped_data self) }
    {
        match self {
            Shipped::Sv39 => sv39_model(alloc),
            Shipped::Sv39x4 => sv39x4_model(alloc),
        }
    }
}

/// What a word for a model names: one that the program brings along, or one of a file.
#[derive(Clone, Copy)]
pub enum ModelWord<'a> {
    Shipped(Shipped),
    File(&'a str),
}

/// The model that a word names.
pub fn model_word(word: &str) -> Option<ModelWord<'_>>
    ensures { option_map model_asked result ≡ model_of word.now }
{
    if is_file_name(word) {
        return Some(ModelWord::File(word));
    }
    match Shipped::of_word(word) {
        Some(shipped) => Some(ModelWord::Shipped(shipped)),
        None => None,
    }
}
