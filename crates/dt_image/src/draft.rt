use crate::entry::Entry;
use crate::image::ImageAccess;
use dt_bits::{NoMemory, Seq, Word};
use std::alloc::Global;

/// What the lines of an image text have declared so far.
#[derive(Debug, Drop)]
pub struct Draft {
    /// How many sections of the text have come, up to that of the last line.
    pub place: usize,
    /// The first address of table memory, and the first one behind it.
    pub bounds: (u128, u128),
    pub contexts: Seq<Seq<u128>>,
    pub accesses: Seq<ImageAccess>,
    pub words: Seq<Word>,
}

impl Draft {
    ghost use Rattle.std.specs.Prelude.{◌≡◌, OnOk};
    ghost use Rattle.dt_image.specs.Draft.{nothing, added};

    /// What no line declares. It takes no memory.
    pub fn new(alloc: Global) -> Draft
        ensures { result ≡ nothing }
    {
        Draft {
            place: 0,
            bounds: (0, 0),
            contexts: Seq::new(alloc),
            accesses: Seq::new(alloc),
            words: Seq::new(alloc),
        }
    }

    /// Adds what a line declares.
    pub fn add(&mut self, entry: Entry) -> Result<(), NoMemory>
        ensures { OnOk result (self.new ≡ added self.old entry) }
    {
        match entry {
            Entry::Header => self.place = 1,
            Entry::Tables(lo, hi) => {
                self.bounds = (lo, hi);
                self.place = 2;
            }
            Entry::Context(values) => {
                self.contexts.push(values)?;
                self.place = 3;
            }
            Entry::Access(access) => {
                self.accesses.push(access)?;
                self.place = 4;
            }
            Entry::Word(word) => {
                self.words.push(word)?;
                self.place = 5;
            }
            Entry::End => self.place = 6,
        }
        Ok(())
    }
}
