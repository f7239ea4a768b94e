// Where tables, words and pages may lie, and which addresses are taken for them.
ghost use Rattle.std.specs.Prelude.{◌≡◌};
ghost use Rattle.dt_draws.specs.Drawing.{drawn, after_draw};

use crate::known::{Known, low, up};
use crate::memory::{Block, Memory};
use dt_bits::Width;
use dt_draws::Draws;
use dt_request::Requests;

/// How many blocks are looked at one after another, and how many at random.
const IN_ORDER: u32 = 256;

const AT_RANDOM: u32 = 64;

/// What is asked of an address: the bits that addresses have, what is known of it, and the exponent
/// of its block.
#[derive(Clone, Copy)]
pub struct Spot {
    pub addresses: u128,
    pub known: Known,
    pub exponent: u32,
}

// The next number that is drawn, of 128 bits.
fn draw(draws: &mut Draws) -> u128
    ensures number { result ≡ drawn draws.old 128 }
    ensures rest { draws.new ≡ after_draw draws.old }
{
    draws.draw(Width(128))
}

/// A number from `lo` up to `hi`, which is not among them, and `lo` where there is none.
pub fn between(lo: u128, hi: u128, dice: u128) -> u128 {
    let count = hi.saturating_sub(lo);
    if count == 0 {
        return lo;
    }
    lo.saturating_add(dice % count)
}

// Whether the block touches a kept range.
fn is_kept(requests: &Requests, block: Block) -> bool {
    requests
        .kept
        .iter()
        .any(|kept| block.touches(kept.lo, kept.hi))
}

impl Spot {
    // The bits that name the block.
    fn high(&self) -> u128 {
        self.addresses & !low(self.exponent)
    }

    /// The block, where all its bits are known.
    pub fn fixed(&self) -> Option<Block> {
        if self.known.covers(self.high()) {
            Some(Block::of(self.known.bits & self.addresses, self.exponent))
        } else {
            None
        }
    }

    /// Whether what is known lets the block be there.
    pub fn admits(&self, block: Block) -> bool {
        !self.known.disagrees(&Known::of(self.high(), block.base))
    }

    // The block of an address whose unknown bits are these.
    fn block(&self, free: u128) -> Block {
        Block::of(self.known.filled(free) & self.addresses, self.exponent)
    }

    /// What is asked of an address in the block.
    pub fn within(&self, block: Block) -> Known {
        Known::of(self.high(), block.base)
    }
}

// Whether a table may be put there: in the bounds, on nothing else.
fn is_free_for_table(requests: &Requests, memory: &Memory, block: Block) -> bool {
    block.touches(requests.lo, requests.hi)
        && !memory.has_table(block)
        && !memory.has_page(block)
        && !is_kept(requests, block)
}

// The free block for a table that comes next.
fn next_table(requests: &Requests, memory: &mut Memory, spot: Spot) -> Option<Block> {
    let size = up(1, spot.exponent);
    let mut at = memory.next;
    for _ in 0..IN_ORDER {
        let block = Block::of(at, spot.exponent);
        if spot.admits(block) && is_free_for_table(requests, memory, block) {
            memory.next = block.base.saturating_add(size);
            return Some(block);
        }
        at = block.base.saturating_add(size);
        if at >= requests.hi {
            at = requests.lo;
        }
    }
    None
}

// A free block for a table at random.
fn random_table(
    requests: &Requests,
    memory: &Memory,
    spot: Spot,
    draws: &mut Draws,
) -> Option<Block> {
    for _ in 0..AT_RANDOM {
        let block = spot.block(between(requests.lo, requests.hi, draw(draws)));
        if is_free_for_table(requests, memory, block) {
            return Some(block);
        }
    }
    None
}

// One of the tables, by random bits.
fn shared_table(memory: &Memory, spot: Spot, dice: u128) -> Option<Block> {
    let mut found = None;
    let mut dice = dice;
    for table in memory.tables.iter() {
        if let Some(table) = table {
            if table.exponent == spot.exponent && spot.admits(*table) {
                if found.is_none() || dice & 1 == 1 {
                    found = Some(*table);
                }
                dice = dice.rotate_right(1);
            }
        }
    }
    found
}

/// A block for a table: a free one, and else one that has a table already.
pub fn table_block(
    requests: &Requests,
    memory: &mut Memory,
    spot: Spot,
    draws: &mut Draws,
) -> Option<Block> {
    if let Some(block) = next_table(requests, memory, spot) {
        return Some(block);
    }
    if let Some(block) = random_table(requests, memory, spot, draws) {
        return Some(block);
    }
    shared_table(memory, spot, draw(draws))
}

// Whether a word may lie there.
fn is_cell(requests: &Requests, bytes: u128, address: u128) -> bool {
    bytes != 0 && address % bytes == 0 && requests.lo <= address && address < requests.hi
}

/// An address for a word in the block, without a word where there is one.
pub fn cell_in(
    requests: &Requests,
    memory: &Memory,
    spot: Spot,
    bytes: u128,
    block: Block,
    draws: &mut Draws,
) -> Option<u128> {
    let aligned = !bytes.saturating_sub(1);
    let lowest = requests.lo.max(block.base);
    let end = requests.hi.min(block.last().saturating_add(1));
    let known = spot.known.with(&spot.within(block));
    let mut found = None;
    for _ in 0..AT_RANDOM {
        let free = between(lowest, end, draw(draws)) & aligned;
        let address = known.filled(free) & spot.addresses;
        if is_cell(requests, bytes, address) {
            if memory.word_at(address).is_none() {
                return Some(address);
            }
            found = Some(address);
        }
    }
    found
}

/// An address at which no word can be read.
pub fn no_cell(requests: &Requests, spot: Spot, bytes: u128, draws: &mut Draws) -> Option<u128> {
    for _ in 0..AT_RANDOM {
        let address = spot.known.filled(draw(draws)) & spot.addresses;
        if !is_cell(requests, bytes, address) {
            return Some(address);
        }
    }
    None
}

/// A block for a page: outside of table memory where there is room, off tables, pages and kept
/// ranges.
pub fn page_block(
    requests: &Requests,
    memory: &Memory,
    spot: Spot,
    draws: &mut Draws,
) -> Option<Block> {
    let mut found = None;
    for _ in 0..AT_RANDOM {
        let block = spot.block(draw(draws));
        let is_free = !memory.has_table(block)
            && !memory.has_page(block)
            && !is_kept(requests, block);
        if is_free {
            if !block.touches(requests.lo, requests.hi) {
                return Some(block);
            }
            found = Some(block);
        }
    }
    found
}

/// What is asked of a number, so that it is from `lo` to `hi`, both among them: as few bits as hold a
/// number there.
pub fn in_span(known: Known, all: u128, lo: u128, hi: u128, draws: &mut Draws) -> Known {
    let first = known.filled(draw(draws)) & all;
    let second = known.filled(between(lo, hi.saturating_add(1), draw(draws))) & all;
    let number = if lo <= first && first <= hi {
        first
    } else if lo <= second && second <= hi {
        second
    } else {
        lo
    };
    let mut want = Known::of(all, number);
    for exponent in 1..129 {
        let block = Block::of(number, exponent);
        if lo <= block.base && block.last() & all <= hi {
            want = Known::of(all & !low(exponent), number);
        } else {
            return want;
        }
    }
    want
}
