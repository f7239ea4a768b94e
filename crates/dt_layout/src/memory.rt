// The memory that is laid out: what is known of registers, inputs and words, and where tables and
// pages lie.
use crate::known::{Known, down, low};
use dt_bits::NoMemory;
use std::alloc::Global;

/// A block of two to `exponent` bytes.
#[derive(Clone, Copy, Debug, PartialEq, Eq)]
pub struct Block {
    pub base: u128,
    pub exponent: u32,
}

impl Block {
    /// The block of an address.
    pub fn of(address: u128, exponent: u32) -> Block {
        Block {
            base: address & !low(exponent),
            exponent,
        }
    }

    /// Whether they have an address in common.
    pub fn overlaps(&self, other: &Block) -> bool {
        let larger = self.exponent.max(other.exponent);
        down(self.base, larger) == down(other.base, larger)
    }

    /// Its last address.
    pub fn last(&self) -> u128 {
        self.base | low(self.exponent)
    }

    /// Whether it has an address from `lo` up to `hi`, which is not among them.
    pub fn touches(&self, lo: u128, hi: u128) -> bool {
        lo < hi && self.base < hi && lo <= self.last()
    }
}

/// What is laid out. Positions of choices come first among the slots, then the words.
#[derive(Drop)]
pub struct Memory {
    pub slots: Vec<Known>,
    /// Where the words lie.
    pub cells: Vec<Option<u128>>,
    /// Which word each read of each access has.
    pub made: Vec<Option<usize>>,
    /// The tables.
    pub tables: Vec<Option<Block>>,
    /// The page of each access.
    pub pages: Vec<Option<Block>>,
    /// Where the next table is looked for.
    pub next: u128,
}

fn copy<T: Copy>(to: &mut [T], from: &[T]) {
    for (new, old) in to.iter_mut().zip(from) {
        *new = *old;
    }
}

// Puts an item at the first free place, and answers that place.
fn put<T: Copy>(places: &mut [Option<T>], item: T) -> Option<usize> {
    for (at, place) in places.iter_mut().enumerate() {
        if place.is_none() {
            *place = Some(item);
            return Some(at);
        }
    }
    None
}

impl Memory {
    /// A memory for so many choices, reads and accesses.
    pub fn new(
        alloc: Global,
        choices: usize,
        reads: usize,
        accesses: usize,
    ) -> Result<Memory, NoMemory> {
        let slots = choices.saturating_add(reads);
        Ok(Memory {
            slots: vec![in alloc; Known::nothing(); slots]?,
            cells: vec![in alloc; None; reads]?,
            made: vec![in alloc; None; reads]?,
            tables: vec![in alloc; None; reads]?,
            pages: vec![in alloc; None; accesses]?,
            next: 0,
        })
    }

    /// Becomes as another is.
    pub fn become_as(&mut self, other: &Memory) {
        copy(&mut self.slots, &other.slots);
        copy(&mut self.cells, &other.cells);
        copy(&mut self.made, &other.made);
        copy(&mut self.tables, &other.tables);
        copy(&mut self.pages, &other.pages);
        self.next = other.next;
    }

    /// Nothing is laid out, and this much is known of the choices.
    pub fn begin(&mut self, seen: &[Known], next: u128) {
        for slot in self.slots.iter_mut() {
            *slot = Known::nothing();
        }
        copy(&mut self.slots, seen);
        for cell in self.cells.iter_mut() {
            *cell = None;
        }
        for made in self.made.iter_mut() {
            *made = None;
        }
        for table in self.tables.iter_mut() {
            *table = None;
        }
        for page in self.pages.iter_mut() {
            *page = None;
        }
        self.next = next;
    }

    /// The word at an address, where one lies there.
    pub fn word_at(&self, address: u128) -> Option<usize> {
        self.cells.iter().position(|cell| *cell == Some(address))
    }

    /// The word at an address, which is put there where none lies there yet.
    pub fn word(&mut self, address: u128) -> Option<usize> {
        match self.word_at(address) {
            Some(word) => Some(word),
            None => put(&mut self.cells, address),
        }
    }

    /// The address of a word.
    pub fn cell(&self, word: usize) -> Option<u128> {
        match self.cells.get(word) {
            Some(cell) => *cell,
            None => None,
        }
    }

    /// The address that a read of an access was made at, by its place among all reads.
    pub fn cell_made(&self, place: usize) -> Option<u128> {
        match self.made.get(place) {
            Some(Some(word)) => self.cell(*word),
            _ => None,
        }
    }

    /// Whether a table overlaps the block.
    pub fn has_table(&self, block: Block) -> bool {
        self.tables.iter().any(|table| match table {
            Some(table) => table.overlaps(&block),
            None => false,
        })
    }

    /// Whether a page overlaps the block.
    pub fn has_page(&self, block: Block) -> bool {
        self.pages.iter().any(|page| match page {
            Some(page) => page.overlaps(&block),
            None => false,
        })
    }

    /// A table lies here.
    pub fn add_table(&mut self, block: Block) {
        if !self.tables.iter().any(|table| *table == Some(block)) {
            let _ = put(&mut self.tables, block);
        }
    }
}
