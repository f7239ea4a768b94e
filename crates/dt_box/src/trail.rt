ghost use Rattle.std.specs.Prelude.{◌≡◌, ◌<◌, ◌≤◌, All, length, take, IfOk, IfSome, MatchOption, OnOk, OnErr};
ghost use Rattle.dt_box.specs.Changes.{IsChange};
ghost use Rattle.dt_box.specs.Trails.{back, with_change};

use crate::Changed;
use crate::change::{change_of, unchanged};
use dt_bits::NoMemory;
use dt_domain::Domain;
use std::alloc::Global;
use std::marker::Model;

/// What cells were before they changed: pairs of a term and its earlier domain, the latest last.
#[derive(Debug, Drop)]
pub struct Trail<D: Domain> {
    pub(crate) changes: Vec<(u32, D)>,
}

impl<D: Domain> Model for Trail<D> {
    ghost use Rattle.std.specs.Prelude.{List, ℕ, All};
    ghost use Rattle.std.specs.Coded.{coded_list, coded×, coded_ℕ};

    ghost Value = { List (ℕ × D) };

    ghost coded = { coded_list (coded× coded_ℕ D.code) };

    ghost view = { λ t. t.changes.items };

    ghost invariant = { λ t. All (λ change. D.ops.IsDomain change.1) t.changes.items };
}

impl<D: Domain> Trail<D> {
    ghost use Rattle.std.specs.Prelude.{◌≡◌, ◌<◌, [], length, slice_index, IsOkAnd};
    ghost use Rattle.dt_box.specs.Trails.{terms_of};

    /// A trail without pairs. It takes no memory yet, and so it doesn't fail.
    pub fn new(alloc: Global) -> Result<Trail<D>, NoMemory>
        ensures { IsOkAnd result (λ trail. trail ≡ []) }
    {
        Ok(Trail {
            changes: Vec::new(alloc),
        })
    }

    /// How many pairs there are.
    pub fn len(&self) -> u64
        ensures { result ≡ length self.now }
    {
        self.changes.len() as u64
    }

    /// The term of the pair at a place, counted from 0.
    pub fn term(&self, place: u64) -> u32
        requires { place < length self.now }
        ensures { result ≡ slice_index (terms_of self.now) place }
    {
        self.changes[place as usize].0
    }
}

// Keeps what a term's cell was, unless it stays as it is. Without memory for it nothing is kept.
fn keep<D: Domain>(
    changes: &mut Vec<(u32, D)>,
    changed: Changed,
    term: u32,
    earlier: &D,
) -> Result<(), NoMemory>
    ensures ok { OnOk result (changes.new.items ≡ with_change changed term earlier.now changes.old.items) }
    ensures err { OnErr result (changes.new.items ≡ changes.old.items) }
{
    match changed {
        Changed::No => {}
        Changed::Narrowed => changes.push((term, *earlier))?,
        Changed::BitKnown => changes.push((term, *earlier))?,
        Changed::Empty => changes.push((term, *earlier))?,
    }
    Ok(())
}

// Puts into a term's cell what narrows it, if anything does, keeps what it was, unless it stays, and
// says what became of it. Without memory for that, all stays.
#[inline(always)]
pub(crate) fn put_kept<D: Domain>(
    narrowed: Option<D>,
    cell: &mut D,
    term: u32,
    changes: &mut Vec<(u32, D)>,
) -> Result<Changed, NoMemory>
    requires cell { D.ops.IsDomain cell.old }
    requires narrowed { IfSome narrowed D.ops.IsDomain }
    ensures cell { OnOk result (MatchOption narrowed (cell.new ≡ cell.old) (λ new. cell.new ≡ new)) }
    ensures change { IfOk result (λ changed. IsChange D.ops cell.old cell.new changed) }
    ensures changes { IfOk result (λ changed. changes.new.items ≡ with_change changed term cell.old changes.old.items) }
    ensures err { OnErr result ((cell.new ≡ cell.old) × (changes.new.items ≡ changes.old.items)) }
{
    match narrowed {
        None => {
            let changed = unchanged(cell);
            keep(changes, changed, term, cell)?;
            Ok(changed)
        }
        Some(new) => {
            let changed = change_of(cell, &new);
            keep(changes, changed, term, cell)?;
            *cell = new;
            Ok(changed)
        }
    }
}

// Undoes the latest changes, until the trail has this many pairs.
pub(crate) fn undo_to<D: Domain>(cells: &mut [D], changes: &mut Vec<(u32, D)>, len: usize)
    requires len { len ≤ length changes.old.items }
    requires terms { All (λ change. change.0 < length cells.old) changes.old.items }
    ensures cells { cells.new ≡ back cells.old changes.old.items len }
    ensures changes { changes.new.items ≡ take len changes.old.items }
{
    while changes.len() > len {
        match changes.pop() {
            Some(change) => cells[change.0 as usize] = change.1,
            None => return,
        }
    }
}
