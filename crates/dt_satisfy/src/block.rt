ghost use Rattle.std.specs.Prelude.{◌≡◌, ◌+◌, ◌/◌, ◌%◌, ◌^◌, nat_lt, ◌++◌, map, OnOk};
ghost use Rattle.std.specs.List.{list_any};
ghost use Rattle.dt_satisfy.specs.Blocks.{block_at, is_block, overlap, are_apart, touches, some_touches, is_kept};
ghost use Rattle.dt_satisfy.specs.Bytes.{BlocksAreBytes};

use dt_bits::NoMemory;
use dt_request::KeptRange;

/// The 2^exponent bytes from `start`, which is a multiple of 2^exponent.
#[derive(Clone, Copy, Debug, PartialEq, Eq)]
pub struct Block {
    pub start: u128,
    pub exponent: u32,
}

// The whole quotient by 2^exponent.
fn quotient(address: u128, exponent: u32) -> u128
    ensures { result ≡ address / 2 ^ exponent }
{
    if exponent < 128 {
        address >> exponent
    } else {
        0
    }
}

// The remainder by 2^exponent.
fn remainder(address: u128, exponent: u32) -> u128
    ensures { result ≡ address % 2 ^ exponent }
{
    if exponent < 128 {
        address % (1 << exponent)
    } else {
        address
    }
}

/// The block of this exponent that holds the address.
pub fn block_at(address: u128, exponent: u32) -> Block
    ensures { result ≡ block_at address exponent }
{
    Block {
        start: address - remainder(address, exponent),
        exponent,
    }
}

/// Whether the two are one block.
pub fn is_block(block: Block, other: Block) -> bool
    ensures { result ≡ is_block block other }
{
    block.start == other.start && block.exponent == other.exponent
}

/// Whether the blocks overlap.
pub fn overlap(block: Block, other: Block) -> bool
    ensures { result ≡ overlap block other }
{
    let larger = block.exponent.max(other.exponent);
    quotient(block.start, larger) == quotient(other.start, larger)
}

// Whether the block overlaps one of the others.
fn overlaps_some(block: Block, others: &[Block]) -> bool
    ensures { result ≡ list_any (overlap block) others.now }
{
    others.iter().any(|other| overlap(block, *other))
}

/// Whether no page overlaps a table. It takes time for each page with each table.
#[tactic(auto, using(std::proofs::lemmas::List::at_drop_more, std::proofs::lemmas::List::drop_more))]
pub fn are_apart(pages: &[Block], tables: &[Block]) -> bool
    ensures { result ≡ are_apart pages.now tables.now }
{
    for page in pages {
        if overlaps_some(*page, tables) {
            return false;
        }
    }
    true
}

// Whether the address lies below the block's end, which may be 2^128 itself.
fn is_below_end(address: u128, block: Block) -> bool
    ensures { result ≡ nat_lt address (block.start + 2 ^ block.exponent) }
{
    address < block.start || quotient(address - block.start, block.exponent) == 0
}

// Whether the range isn't empty, and a byte of it lies in the block.
fn touches(block: Block, kept: KeptRange) -> bool
    ensures { result ≡ touches block kept }
{
    kept.lo < kept.hi && block.start < kept.hi && is_below_end(kept.lo, block)
}

// Whether some block touches the range.
fn some_touches(blocks: &[Block], kept: KeptRange) -> bool
    ensures { result ≡ some_touches blocks.now kept }
{
    blocks.iter().any(|block| touches(*block, kept))
}

// Whether no page and no table touches the range.
fn is_kept(pages: &[Block], tables: &[Block], kept: KeptRange) -> bool
    ensures { result ≡ is_kept pages.now tables.now kept }
{
    !some_touches(pages, kept) && !some_touches(tables, kept)
}

/// Appends for each kept range whether no page and no table touches it. It takes time for each range
/// with each page and each table.
pub fn push_kept(
    pages: &[Block],
    tables: &[Block],
    kept: &[KeptRange],
    claims: &mut Vec<bool>,
) -> Result<(), NoMemory>
    ensures { OnOk result (claims.new.items ≡ claims.old.items ++ map (is_kept pages.now tables.now) kept.now) }
{
    for range in kept {
        claims.push(is_kept(pages, tables, *range))?;
    }
    Ok(())
}

/// A law of blocks; the call does nothing. The block at an address has it; two blocks overlap exactly
/// where some byte is in both; and a block touches a kept range exactly where some byte is in both.
#[tactic(auto, using(crate::proofs::Bytes::blocks_are_bytes))]
pub fn blocks_are_bytes()
    ensures { BlocksAreBytes }
{}
