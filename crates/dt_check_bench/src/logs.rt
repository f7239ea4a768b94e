//! Logs of these problems: a full tree of splits, one level for each chain, with every step of the
//! chain's nodes behind each of its splits.
use crate::problems::Size;
use crate::stop::Stop;
use dt_log::{Claim, Draft, Line, Log};
use std::alloc::Global;

/// The steps that a chain's bit leads to.
fn push_steps(draft: &mut Draft, size: Size, chain: u32) -> Result<(), Stop> {
    let choice = size.choice_of(chain);
    for node in 0..size.nodes {
        let term = choice.saturating_add(node).saturating_add(1);
        draft.push(Line::Forward { term })?;
    }
    Ok(())
}

/// The splits from this level down along left trees.
fn push_splits(draft: &mut Draft, size: Size, level: u32) -> Result<(), Stop> {
    for chain in level..size.chains {
        let term = size.choice_of(chain);
        draft.push(Line::Split { term, bit: 0 })?;
        push_steps(draft, size, chain)?;
    }
    Ok(())
}

/// A refutation of the contradiction, by both values of its bit.
fn push_refutation(draft: &mut Draft) -> Result<(), Stop> {
    draft.push(Line::Split { term: 0, bit: 0 })?;
    draft.push(Line::Forward { term: 2 })?;
    draft.push(Line::Close { term: 2 })?;
    draft.push(Line::Forward { term: 1 })?;
    draft.push(Line::Forward { term: 2 })?;
    draft.push(Line::Close { term: 2 })?;
    Ok(())
}

/// The end of a leaf.
fn push_leaf(draft: &mut Draft, refutes: bool) -> Result<(), Stop> {
    if refutes {
        push_refutation(draft)
    } else {
        draft.push(Line::Loose)?;
        Ok(())
    }
}

/// The items of a full tree of splits, whose leaves are counted from 0.
fn push_tree(draft: &mut Draft, size: Size, refutes: bool) -> Result<u64, Stop> {
    let leaves = 1u64 << size.chains.min(30);
    for leaf in 0..leaves {
        let mut level = 0;
        if leaf > 0 {
            let right = size
                .chains
                .saturating_sub(leaf.trailing_zeros().saturating_add(1));
            push_steps(draft, size, right)?;
            level = right.saturating_add(1);
        }
        push_splits(draft, size, level)?;
        push_leaf(draft, refutes)?;
    }
    Ok(leaves)
}

/// A refutation of the contradiction.
pub fn refutation(alloc: Global, size: Size) -> Result<Log, Stop> {
    let mut draft = Draft::new(alloc);
    push_tree(&mut draft, size, true)?;
    draft.finish(Claim::Impossible).ok_or(Stop::NoTree)
}

/// A record of the difference, with a split at each level.
pub fn record(alloc: Global, size: Size) -> Result<Log, Stop> {
    let mut draft = Draft::new(alloc);
    let leaves = push_tree(&mut draft, size, false)?;
    draft
        .finish(Claim::Budget(leaves.saturating_sub(1)))
        .ok_or(Stop::NoTree)
}
