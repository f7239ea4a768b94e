ghost use Rattle.std.specs.Prelude.{◌≡◌, ◌<◌, ◌↔◌, All, length, IsTrue, IfSome, MatchOption};
ghost use Rattle.dt_bits.specs.Bits.{width};
ghost use Rattle.dt_terms.specs.Terms.{AreTerms};
ghost use Rattle.dt_box.specs.Cells.{AreCells};
ghost use Rattle.dt_box.specs.Stillness.{IsSettled, IsStillAt, TellsNew};
ghost use Rattle.dt_box.specs.Trails.{undone};
ghost use Rattle.dt_box.specs.Watching.{watches_of, AreStillNear};

use crate::sweep::step_from;
use crate::{Step, Watches};
use dt_domain::Domain;
use dt_terms::Term;

// A step from a term's node that tells something new, where the node isn't one of which it is known that
// its steps don't.
fn own_step<D: Domain>(
    terms: &[Term],
    cells: &[D],
    unused: &D,
    term: u32,
    still: Option<u32>,
) -> Option<Step>
    requires terms { AreTerms terms.now }
    requires cells { AreCells D.ops terms.now cells.now }
    requires unused { unused.now ≡ D.ops.full (width 1) }
    requires term { term < length terms.now }
    requires still { IfSome still (λ node. IsStillAt D.ops terms.now node cells.now) }
    ensures { MatchOption result (IsStillAt D.ops terms.now term cells.now) (λ step. TellsNew D.ops terms.now step cells.now) }
{
    match still {
        Some(node) if node == term => None,
        _ => step_from(terms, cells, unused, term),
    }
}

// A step near a term, from it or from a node that uses it, that tells something new.
fn near_step<D: Domain>(
    terms: &[Term],
    watches: &Watches,
    cells: &[D],
    unused: &D,
    term: u32,
    still: Option<u32>,
) -> Option<Step>
    requires terms { AreTerms terms.now }
    requires watches { watches.now ≡ watches_of terms.now }
    requires cells { AreCells D.ops terms.now cells.now }
    requires unused { unused.now ≡ D.ops.full (width 1) }
    requires term { term < length terms.now }
    requires still { IfSome still (λ node. IsStillAt D.ops terms.now node cells.now) }
    ensures { MatchOption result (AreStillNear D.ops terms.now cells.now term) (λ step. TellsNew D.ops terms.now step cells.now) }
{
    match own_step(terms, cells, unused, term, still) {
        Some(step) => return Some(step),
        None => {}
    }
    for user in watches.users(term) {
        match step_from(terms, cells, unused, *user) {
            Some(step) => return Some(step),
            None => {}
        }
    }
    None
}

// The last node that uses a term near which no step tells something new: no step from it does.
fn last_user<D: Domain>(terms: &[Term], watches: &Watches, cells: &[D], term: u32) -> Option<u32>
    requires watches { watches.now ≡ watches_of terms.now }
    requires term { term < length terms.now }
    requires near { AreStillNear D.ops terms.now cells.now term }
    ensures { IfSome result (λ node. IsStillAt D.ops terms.now node cells.now) }
{
    watches.users(term).last().copied()
}

// Whether cells are settled that were before these changes.
pub(crate) fn are_settled_after<D: Domain>(
    terms: &[Term],
    watches: &Watches,
    cells: &[D],
    unused: &D,
    changes: &[(u32, D)],
) -> bool
    requires terms { AreTerms terms.now }
    requires watches { watches.now ≡ watches_of terms.now }
    requires cells { AreCells D.ops terms.now cells.now }
    requires unused { unused.now ≡ D.ops.full (width 1) }
    requires changes { All (λ change. change.0 < length terms.now) changes.now }
    requires settled { IsSettled D.ops terms.now (undone cells.now changes.now) }
    ensures { IsTrue result ↔ IsSettled D.ops terms.now cells.now }
{
    // a node whose steps tell nothing new: in a chain it is the next one that changed
    let mut still: Option<u32> = None;
    for change in changes {
        let term = change.0;
        if cells[term as usize].is_empty() {
            return false;
        }
        match near_step(terms, watches, cells, unused, term, still) {
            Some(_) => return false,
            None => still = last_user(terms, watches, cells, term),
        }
    }
    true
}
