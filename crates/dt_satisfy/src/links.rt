ghost use Rattle.std.specs.Prelude.{◌≡◌, ◌++◌, List, map, slice_get, OnOk};
ghost use Rattle.std.specs.Option.{option_to_list};
ghost use Rattle.dt_model.specs.Flow.{steps_of};
ghost use Rattle.dt_walk.specs.Walkers.{run_data};
ghost use Rattle.dt_satisfy.specs.Blocks.{is_block};
ghost use Rattle.dt_satisfy.specs.Links.{page_of, pages_of, step_granule, table_of, tables_of, read_in, table_in, cell_in, page_in, both, is_apart, is_cell, link_holds};

use crate::block::{Block, block_at, is_block, overlap};
use crate::demands::read_at;
use dt_bits::NoMemory;
use dt_model::{Act, Node};
use dt_request::{Link, Side};
use dt_walk::{End, ReadMade, Run};

// The page, where the run ends with a result.
fn page_of(end: End) -> Option<Block>
    ensures { result ≡ page_of end }
{
    match end {
        End::Done { pa, page, .. } => Some(block_at(pa, page)),
        End::Fault { .. } => None,
    }
}

// The granule of a read node.
fn granule(nodes: &[Node], node: u32) -> u32
    ensures { result ≡ step_granule (slice_get (steps_of nodes.now) node) }
{
    match nodes.get(node as usize) {
        Some(node) => match node.act {
            Act::Read { granule, .. } => granule,
            _ => 0,
        },
        None => 0,
    }
}

// The table of a made read.
fn table_of(nodes: &[Node], made: ReadMade) -> Block
    ensures { result ≡ table_of (steps_of nodes.now) made }
{
    block_at(made.cell, granule(nodes, made.node))
}

// The page, where the run ends with a result.
fn push_page(end: End, pages: &mut Vec<Block>) -> Result<(), NoMemory>
    ensures { OnOk result (pages.new.items ≡ pages.old.items ++ option_to_list (page_of end)) }
{
    match page_of(end) {
        None => Ok(()),
        Some(page) => {
            pages.push(page)?;
            Ok(())
        }
    }
}

/// Appends the pages that runs end in.
pub fn push_pages(runs: &[Run], pages: &mut Vec<Block>) -> Result<(), NoMemory>
    ensures { OnOk result (pages.new.items ≡ pages.old.items ++ pages_of (map run_data runs.now)) }
{
    for run in runs {
        push_page(run.end, pages)?;
    }
    Ok(())
}

// The table of each made read.
fn push_reads(nodes: &[Node], reads: &[ReadMade], tables: &mut Vec<Block>) -> Result<(), NoMemory>
    ensures { OnOk result (tables.new.items ≡ tables.old.items ++ map (table_of (steps_of nodes.now)) reads.now) }
{
    for made in reads {
        tables.push(table_of(nodes, *made))?;
    }
    Ok(())
}

/// Appends the tables of all reads that runs make.
pub fn push_tables(nodes: &[Node], runs: &[Run], tables: &mut Vec<Block>) -> Result<(), NoMemory>
    ensures { OnOk result (tables.new.items ≡ tables.old.items
        ++ tables_of (steps_of nodes.now) (map run_data runs.now)) }
{
    for run in runs {
        push_reads(nodes, run.reads.as_slice(), tables)?;
    }
    Ok(())
}

// The read that the access makes at the node.
fn read_in(runs: &[Run], side: Side) -> Option<ReadMade>
    ensures { result ≡ read_in (map run_data runs.now) side }
{
    let run = runs.get(side.access as usize)?;
    read_at(run.reads.as_slice(), side.node)
}

// The table of the read that the access makes at the node.
fn table_in(nodes: &[Node], runs: &[Run], side: Side) -> Option<Block>
    ensures { result ≡ table_in (steps_of nodes.now) (map run_data runs.now) side }
{
    let made = read_in(runs, side)?;
    Some(table_of(nodes, made))
}

// The address of the read that the access makes at the node.
fn cell_in(runs: &[Run], side: Side) -> Option<u128>
    ensures { result ≡ cell_in (map run_data runs.now) side }
{
    let made = read_in(runs, side)?;
    Some(made.cell)
}

// The page that the access ends in.
fn page_in(runs: &[Run], access: u32) -> Option<Block>
    ensures { result ≡ page_in (map run_data runs.now) access }
{
    let run = runs.get(access as usize)?;
    page_of(run.end)
}

// Whether both blocks are there, and are one.
fn share_block(one: Option<Block>, other: Option<Block>) -> bool
    ensures { result ≡ both is_block one other }
{
    match (one, other) {
        (Some(one), Some(other)) => is_block(one, other),
        _ => false,
    }
}

// Whether both blocks are there, and don't overlap.
fn lie_apart(one: Option<Block>, other: Option<Block>) -> bool
    ensures { result ≡ both is_apart one other }
{
    match (one, other) {
        (Some(one), Some(other)) => !overlap(one, other),
        _ => false,
    }
}

// Whether both cells are there, and are one.
fn share_cell(one: Option<u128>, other: Option<u128>) -> bool
    ensures { result ≡ both is_cell one other }
{
    match (one, other) {
        (Some(one), Some(other)) => one == other,
        _ => false,
    }
}

fn link_holds(nodes: &[Node], runs: &[Run], link: Link) -> bool
    ensures { result ≡ link_holds (steps_of nodes.now) (map run_data runs.now) link }
{
    match link {
        Link::ShareTable(a, b) => share_block(table_in(nodes, runs, a), table_in(nodes, runs, b)),
        Link::ShareCell(a, b) => share_cell(cell_in(runs, a), cell_in(runs, b)),
        Link::SharePage(a, b) => share_block(page_in(runs, a), page_in(runs, b)),
        Link::ApartTable(a, b) => lie_apart(table_in(nodes, runs, a), table_in(nodes, runs, b)),
        Link::ApartPage(a, b) => lie_apart(page_in(runs, a), page_in(runs, b)),
    }
}

/// Appends whether each link holds.
pub fn push_links(
    nodes: &[Node],
    runs: &[Run],
    links: &[Link],
    claims: &mut Vec<bool>,
) -> Result<(), NoMemory>
    ensures { OnOk result (claims.new.items ≡ claims.old.items
        ++ map (link_holds (steps_of nodes.now) (map run_data runs.now)) links.now) }
{
    for link in links {
        claims.push(link_holds(nodes, runs, *link))?;
    }
    Ok(())
}
