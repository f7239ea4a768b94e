ghost use Rattle.std.specs.Prelude.{◌≡◌, ◌++◌, ◌∷◌, [], map, replicate, IfOk, OnOk, if◌then◌else◌};
ghost use Rattle.dt_log.specs.Trees.{try_line};
ghost use Rattle.dt_log.specs.declared.line.Line.TheVariants.{Loose, Unvisited};
ghost use Rattle.dt_solve.specs.Untried.{is_try_item, without_tries};

use dt_bits::NoMemory;
use dt_log::{Draft, Line};
use std::alloc::Global;

// Writes a Try item for each pair of a choice and a number.
pub(crate) fn write_tries(pairs: &[(u32, u128)], draft: &mut Draft) -> Result<(), NoMemory>
    ensures { OnOk result (draft.new.lines ≡ draft.old.lines ++ map try_line pairs.now) }
{
    for pair in pairs {
        draft.push(Line::Try {
            choice: pair.0,
            value: pair.1,
        })?;
    }
    Ok(())
}

// Ends the tree that is read, and those that were to come, without looking into them.
pub(crate) fn write_rest(draft: &mut Draft, waiting: usize) -> Result<(), NoMemory>
    ensures { OnOk result (draft.new.lines ≡ draft.old.lines ++ Loose ∷ replicate waiting Unvisited) }
{
    draft.push(Line::Loose)?;
    for _done in 0..waiting {
        draft.push(Line::Unvisited)?;
    }
    Ok(())
}

// Whether an item says what was tried.
fn is_try(line: Line) -> bool
    ensures { result ≡ is_try_item line }
{
    match line {
        Line::Try { .. } => true,
        _ => false,
    }
}

// Appends an item, unless it says what was tried.
fn push_untried(bare: &mut Draft, line: Line) -> Result<(), NoMemory>
    ensures { OnOk result (bare.new.lines ≡ bare.old.lines ++ (if is_try_item line then [] else line ∷ [])) }
{
    if is_try(line) {
        return Ok(());
    }
    bare.push(line)
}

// The items of a draft but those that say what was tried.
pub(crate) fn without_tries(alloc: Global, draft: &Draft) -> Result<Draft, NoMemory>
    ensures { IfOk result (λ bare. bare.lines ≡ without_tries draft.now.lines) }
{
    let mut bare = Draft::new(alloc);
    for at in 0..draft.lines.len() {
        push_untried(&mut bare, draft.lines.at(at))?;
    }
    Ok(bare)
}

// A draft of the same items.
pub(crate) fn copy_of(alloc: Global, draft: &Draft) -> Result<Draft, NoMemory>
    ensures { IfOk result (λ copy. copy.lines ≡ draft.now.lines) }
{
    let mut copy = Draft::new(alloc);
    for at in 0..draft.lines.len() {
        copy.push(draft.lines.at(at))?;
    }
    Ok(copy)
}
