//! The parts of a file of cases, and of one case.
ghost use Rattle.std.specs.Prelude.{◌<◌, ◌-◌, ◌^◌, length};

/// A header line and the text below it.
#[derive(Drop)]
pub struct Part {
    /// The first word of the header.
    pub word: String,
    /// The rest of the header.
    pub rest: String,
    pub text: String,
}

impl Part {
    /// Whether the parts of a case end before this one.
    pub fn ends_case(&self) -> bool {
        self.word.as_str() == "case" || self.word.as_str() == "text"
    }
}

/// The most bytes of a text that a call is given.
const LIMIT: usize = 16_777_216;

/// Parts of which the first are those of a case.
#[derive(Clone, Copy)]
pub struct Case<'a> {
    pub parts: &'a [Part],
}

impl<'a> Case<'a> {
    /// The first part of this word.
    pub fn part(self, word: &str) -> Option<&'a Part> {
        for part in self.parts {
            if part.ends_case() {
                return None;
            }
            if part.word.as_str() == word {
                return Some(part);
            }
        }
        None
    }

    /// The text of the first part of this word; empty where there is none, or it is too long.
    pub fn text(self, word: &str) -> &'a str
        ensures { length result.now < 2 ^ 32 - 1 }
    {
        match self.part(word) {
            Some(part) if part.text.len() <= LIMIT => part.text.as_str(),
            _ => "",
        }
    }

    /// The words behind the first part of this word.
    pub fn words(self, word: &str) -> &'a str {
        match self.part(word) {
            Some(part) => part.rest.as_str(),
            None => "",
        }
    }
}
