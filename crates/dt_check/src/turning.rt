ghost use Rattle.std.specs.Prelude.{◌≡◌, ◌<◌, All, IfOk, OnOk, IfSome, length, reverse};
ghost use Rattle.dt_box.specs.Cells.{AreCells};
ghost use Rattle.dt_check.specs.Waiting.{Stacked, CanBegin, AtSplits, IsNext, IsBegun};
ghost use Rattle.dt_check.specs.Trying.{IsTrial};

use crate::{Pending, Trial};
use dt_bits::NoMemory;
use dt_box::{Cells, Trail};
use dt_domain::Domain;
use dt_terms::Problem;

/// Goes back to the latest split whose right tree is still to come, and begins that tree; None where
/// there is none; the trial follows the cells. It costs as much as the changes that it undoes. After want
/// of memory the cells are those of the split.
pub fn next_tree<D: Domain>(
    problem: &Problem,
    cells: &mut Cells<D>,
    trail: &mut Trail<D>,
    pending: &mut Vec<Pending>,
    trial: &mut Trial,
) -> Result<Option<Pending>, NoMemory>
    requires cells { AreCells D.ops problem.now.terms cells.old }
    requires within { All (λ change. change.0 < length cells.old) trail.old }
    requires stacked { Stacked (length trail.old) (reverse pending.old.items) }
    requires trial { IsTrial D.ops problem.now.terms cells.old trail.old trial.old }
    requires begin { AtSplits (CanBegin D.ops problem.now.terms) cells.old trail.old (reverse pending.old.items) }
    ensures are { OnOk result (AreCells D.ops problem.now.terms cells.new) }
    ensures next { IfOk result (λ begun. IsNext D.ops cells.old trail.old (reverse pending.old.items) cells.new trail.new (reverse pending.new.items) begun) }
    ensures begun { IfOk result (λ begun. IfSome begun (λ q. IsBegun D.ops cells.old trail.old (reverse pending.old.items) cells.new trail.new (reverse pending.new.items) q)) }
    ensures trial { OnOk result (IsTrial D.ops problem.now.terms cells.new trail.new trial.new) }
{
    match pending.pop() {
        None => Ok(None),
        Some(split) => {
            trial.undo(problem, cells, trail, split.length);
            cells.set_bit_kept(problem, split.term, split.bit, true, trail)?;
            Ok(Some(split))
        }
    }
}
