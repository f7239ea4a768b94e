use crate::entry::Entry;
use crate::line::Claim;
use crate::lines::Lines;
use dt_bits::NoMemory;
use std::alloc::Global;

/// What the lines of a log's text have declared so far.
#[derive(Debug, Drop)]
pub struct Written {
    /// How many sections of the text have come, up to that of the last line.
    pub place: usize,
    pub claim: Claim,
    pub lines: Lines,
}

impl Written {
    ghost use Rattle.std.specs.Prelude.{◌≡◌, OnOk};
    ghost use Rattle.dt_log.specs.Written.{nothing, added};

    /// What no line declares. It takes no memory.
    pub fn new(alloc: Global) -> Written
        ensures { result ≡ nothing }
    {
        Written {
            place: 0,
            claim: Claim::Impossible,
            lines: Lines::new(alloc),
        }
    }

    /// Adds what a line declares.
    pub fn add(&mut self, entry: Entry) -> Result<(), NoMemory>
        ensures { OnOk result (self.new ≡ added self.old entry) }
    {
        match entry {
            Entry::Claim(claim) => {
                self.claim = claim;
                self.place = 1;
            }
            Entry::Item(line) => {
                self.lines.push(line)?;
                self.place = 2;
            }
            Entry::End => self.place = 3,
        }
        Ok(())
    }
}
