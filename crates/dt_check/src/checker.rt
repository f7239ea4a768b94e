ghost use Rattle.std.specs.Prelude.{◌≡◌};
ghost use Rattle.dt_check.specs.Checking.{settled_at};

use crate::causing::{bit_cause, close_cause, step_cause, unvisited_cause};
use crate::settledness::is_settled_now;
use crate::trial::{Trial, hold_tries};
use crate::turning::next_tree;
use crate::{Cause, Pending};
use dt_bits::NoMemory;
use dt_box::{Cells, Step, Trail};
use dt_domain::Domain;
use dt_log::{Claim, Line};
use dt_terms::Problem;
use std::alloc::Global;

// Where the cells are known to be settled, after a split at this length of the trail.
fn settled_at(claim: Claim, length: u64) -> Option<u64>
    ensures { result ≡ settled_at claim length }
{
    match claim {
        Claim::Impossible => None,
        Claim::Budget(_) => Some(length),
    }
}

/// What is found at an item of a log.
#[derive(Clone, Copy, Debug, PartialEq, Eq)]
pub(crate) enum Finding {
    /// It has no cause, and a tree is to go on.
    Passed,
    /// It has no cause, and no tree waits.
    Ended,
    /// Why it is refused.
    Refused(Cause),
}

/// Where the checker stands between two items of a log: the cells of the tree that is read, what they
/// were before, from the first split on, the right trees that wait, the latest split last, how many
/// splits there were, whether there was an end that was left, and how long the trail was when the cells
/// were last seen to be settled.
#[derive(Drop)]
pub(crate) struct Checker<D: Domain> {
    cells: Cells<D>,
    trail: Trail<D>,
    pending: Vec<Pending>,
    splits: u64,
    opened: bool,
    settled: Option<u64>,
}

impl<D: Domain> Checker<D> {
    ghost use Rattle.std.specs.Prelude.{◌≡◌, ◌+◌, ◌^◌, ◌<◌, ◌≤◌, [], None, All, IfOk, OnOk, length, true};
    ghost use Rattle.dt_terms.specs.Terms.{choices_of};
    ghost use Rattle.dt_box.specs.declared.step.Step.{Step};
    ghost use Rattle.dt_log.specs.declared.line.Claim.{Claim};
    ghost use Rattle.dt_log.specs.declared.line.Line.TheVariants.{Try, Split, Close, Loose, Unvisited};
    ghost use Rattle.dt_box.specs.Cells.{AreCells};
    ghost use Rattle.dt_check.specs.Reading.{at_first, trial_cause, split_cause, split_trial, loose_cause};
    ghost use Rattle.dt_check.specs.Checking.{state_of, left, reading_at, WasSettled, is_first, IsKeptAt, IsState, IsTreeEnded, IsFound, step_line};
    ghost use Rattle.dt_check.specs.Trying.{IsTrial};

    /// The checker before the first item, at the root cells.
    pub(crate) fn new(alloc: Global, problem: &Problem) -> Result<Checker<D>, NoMemory>
        ensures reading { IfOk result (λ c. reading_at D.ops (state_of c) [] ≡ at_first D.ops problem.now) }
        ensures state { IfOk result (λ c. (claim : Claim) → IsState D.ops problem.now.terms claim (state_of c)) }
        ensures splits { IfOk result (λ c. c.splits ≡ 0) }
    {
        Ok(Checker {
            cells: Cells::root(alloc, problem)?,
            trail: Trail::new(alloc)?,
            pending: Vec::new(alloc),
            splits: 0,
            opened: false,
            settled: None,
        })
    }

    /// How many splits there were.
    pub(crate) fn splits(&self) -> u64
        ensures { result ≡ self.now.splits }
    {
        self.splits
    }

    /// Whether there was an end that was left.
    pub(crate) fn is_opened(&self) -> bool
        ensures { result ≡ self.now.opened }
    {
        self.opened
    }

    // Whether no split was read yet: then there is nothing to go back to.
    fn is_first(&self) -> bool
        ensures { result ≡ is_first (state_of self.now) }
    {
        self.trail.len() == 0 && self.pending.len() == 0 && self.settled.is_none()
    }

    // What is found at a step. From the first split on, the trail keeps what its target's cell was.
    fn read_step(
        &mut self,
        problem: &Problem,
        trial: &mut Trial,
        claim: Claim,
        step: Step,
    ) -> Result<Finding, NoMemory>
        requires state { IsState D.ops problem.now.terms claim (state_of self.old) }
        requires trial { IsTrial D.ops problem.now.terms self.old.cells self.old.trail trial.old }
        ensures found { IfOk result (λ finding. IsFound D.ops problem.now claim (step_line step) [] (state_of self.old) finding (state_of self.new)) }
        ensures splits { self.new.splits ≡ self.old.splits }
        ensures kept { OnOk result (IsKeptAt (is_first (state_of self.old)) self.old.cells self.old.trail self.new.cells self.new.trail) }
        ensures trial { OnOk result (IsTrial D.ops problem.now.terms self.new.cells self.new.trail trial.new) }
    {
        if let Some(cause) = step_cause(problem, step) {
            return Ok(Finding::Refused(cause));
        }
        if self.is_first() {
            trial.apply(problem, &mut self.cells, step);
            return Ok(Finding::Passed);
        }
        self.cells.apply_kept(problem, step, &mut self.trail)?;
        Ok(Finding::Passed)
    }

    // Ends the tree that is read, and begins the one that waited first, if any did.
    fn end_tree(
        &mut self,
        problem: &Problem,
        trial: &mut Trial,
        claim: Claim,
    ) -> Result<Finding, NoMemory>
        requires state { IsState D.ops problem.now.terms claim (state_of self.old) }
        requires trial { IsTrial D.ops problem.now.terms self.old.cells self.old.trail trial.old }
        ensures ended { IfOk result (λ finding. IsTreeEnded D.ops problem.now.terms claim (state_of self.old) finding (state_of self.new)) }
        ensures splits { self.new.splits ≡ self.old.splits }
        ensures trial { OnOk result (IsTrial D.ops problem.now.terms self.new.cells self.new.trail trial.new) }
    {
        match next_tree(
            problem,
            &mut self.cells,
            &mut self.trail,
            &mut self.pending,
            trial,
        )? {
            None => Ok(Finding::Ended),
            Some(split) => {
                self.settled = settled_at(claim, split.length);
                Ok(Finding::Passed)
            }
        }
    }

    // What is found at a Close item.
    fn read_close(
        &mut self,
        problem: &Problem,
        trial: &mut Trial,
        claim: Claim,
        term: u32,
    ) -> Result<Finding, NoMemory>
        requires state { IsState D.ops problem.now.terms claim (state_of self.old) }
        requires trial { IsTrial D.ops problem.now.terms self.old.cells self.old.trail trial.old }
        ensures found { IfOk result (λ finding. IsFound D.ops problem.now claim (Close term) [] (state_of self.old) finding (state_of self.new)) }
        ensures splits { self.new.splits ≡ self.old.splits }
        ensures trial { OnOk result (IsTrial D.ops problem.now.terms self.new.cells self.new.trail trial.new) }
    {
        match close_cause(problem, &self.cells, term) {
            Some(cause) => Ok(Finding::Refused(cause)),
            None => self.end_tree(problem, trial, claim),
        }
    }

    // Why what was tried is refused.
    fn trial_cause(
        &self,
        problem: &Problem,
        trial: &mut Trial,
        tries: &[(u32, u128)],
    ) -> Option<Cause>
        requires cells { AreCells D.ops problem.now.terms self.now.cells }
        requires within { All (λ change. change.0 < length self.now.cells) self.now.trail }
        requires settled { WasSettled D.ops problem.now.terms self.now.cells self.now.trail self.now.settled }
        requires trial { IsTrial D.ops problem.now.terms self.now.cells self.now.trail trial.old }
        ensures cause { result ≡ trial_cause D.ops problem.now self.now.cells tries.now }
        ensures trial { IsTrial D.ops problem.now.terms self.now.cells self.now.trail trial.new }
    {
        let watches = trial.watches();
        if !is_settled_now(problem, watches, &self.cells, &self.trail, self.settled) {
            return Some(Cause::NotSettled);
        }
        if !hold_tries(problem, &self.cells, tries) {
            return Some(Cause::TriedOutside);
        }
        if trial.solves(problem, &self.cells, &self.trail, tries) {
            return Some(Cause::TriedSolves);
        }
        None
    }

    // Why a Split item is refused.
    fn split_cause(
        &self,
        problem: &Problem,
        trial: &mut Trial,
        claim: Claim,
        tries: &[(u32, u128)],
        term: u32,
        bit: u32,
    ) -> Option<Cause>
        requires cells { AreCells D.ops problem.now.terms self.now.cells }
        requires within { All (λ change. change.0 < length self.now.cells) self.now.trail }
        requires settled { WasSettled D.ops problem.now.terms self.now.cells self.now.trail self.now.settled }
        requires trial { IsTrial D.ops problem.now.terms self.now.cells self.now.trail trial.old }
        ensures cause { result ≡ split_cause D.ops problem.now.terms self.now.cells term bit (split_trial D.ops problem.now claim self.now.cells tries.now) }
        ensures trial { IsTrial D.ops problem.now.terms self.now.cells self.now.trail trial.new }
    {
        match bit_cause(problem, &self.cells, term, bit) {
            Some(cause) => Some(cause),
            None => match claim {
                Claim::Impossible => None,
                Claim::Budget(_) => self.trial_cause(problem, trial, tries),
            },
        }
    }

    // What is found at a Split item.
    fn read_split(
        &mut self,
        problem: &Problem,
        trial: &mut Trial,
        claim: Claim,
        tries: &[(u32, u128)],
        term: u32,
        bit: u32,
    ) -> Result<Finding, NoMemory>
        requires state { IsState D.ops problem.now.terms claim (state_of self.old) }
        requires splits { self.old.splits + 1 < 2 ^ 64 }
        requires trial { IsTrial D.ops problem.now.terms self.old.cells self.old.trail trial.old }
        ensures found { IfOk result (λ finding. IsFound D.ops problem.now claim (Split term bit) tries.now (state_of self.old) finding (state_of self.new)) }
        ensures splits { self.new.splits ≤ self.old.splits + 1 }
        ensures trial { OnOk result (IsTrial D.ops problem.now.terms self.new.cells self.new.trail trial.new) }
    {
        match self.split_cause(problem, trial, claim, tries, term, bit) {
            Some(cause) => Ok(Finding::Refused(cause)),
            None => {
                let split = Pending {
                    length: self.trail.len(),
                    term,
                    bit,
                };
                self.pending.push(split)?;
                self.cells
                    .set_bit_kept(problem, term, bit, false, &mut self.trail)?;
                self.splits += 1;
                self.settled = settled_at(claim, split.length);
                Ok(Finding::Passed)
            }
        }
    }

    // Ends the tree that is read with an end that was left.
    fn leave_tree(
        &mut self,
        problem: &Problem,
        trial: &mut Trial,
        claim: Claim,
    ) -> Result<Finding, NoMemory>
        requires state { IsState D.ops problem.now.terms claim (state_of self.old) }
        requires trial { IsTrial D.ops problem.now.terms self.old.cells self.old.trail trial.old }
        ensures ended { IfOk result (λ finding. IsTreeEnded D.ops problem.now.terms claim (left (state_of self.old)) finding (state_of self.new)) }
        ensures splits { self.new.splits ≡ self.old.splits }
        ensures trial { OnOk result (IsTrial D.ops problem.now.terms self.new.cells self.new.trail trial.new) }
    {
        self.opened = true;
        self.end_tree(problem, trial, claim)
    }

    // Why a Loose item is refused.
    fn loose_cause(
        &self,
        problem: &Problem,
        trial: &mut Trial,
        claim: Claim,
        tries: &[(u32, u128)],
    ) -> Option<Cause>
        requires cells { AreCells D.ops problem.now.terms self.now.cells }
        requires within { All (λ change. change.0 < length self.now.cells) self.now.trail }
        requires settled { WasSettled D.ops problem.now.terms self.now.cells self.now.trail self.now.settled }
        requires trial { IsTrial D.ops problem.now.terms self.now.cells self.now.trail trial.old }
        ensures cause { result ≡ loose_cause D.ops problem.now claim self.now.opened self.now.cells tries.now }
        ensures trial { IsTrial D.ops problem.now.terms self.now.cells self.now.trail trial.new }
    {
        match claim {
            Claim::Impossible => Some(Cause::WrongClaim),
            Claim::Budget(_) => if self.opened {
                None
            } else {
                self.trial_cause(problem, trial, tries)
            },
        }
    }

    // What is found at a Loose item.
    fn read_loose(
        &mut self,
        problem: &Problem,
        trial: &mut Trial,
        claim: Claim,
        tries: &[(u32, u128)],
    ) -> Result<Finding, NoMemory>
        requires state { IsState D.ops problem.now.terms claim (state_of self.old) }
        requires trial { IsTrial D.ops problem.now.terms self.old.cells self.old.trail trial.old }
        ensures found { IfOk result (λ finding. IsFound D.ops problem.now claim Loose tries.now (state_of self.old) finding (state_of self.new)) }
        ensures splits { self.new.splits ≡ self.old.splits }
        ensures trial { OnOk result (IsTrial D.ops problem.now.terms self.new.cells self.new.trail trial.new) }
    {
        match self.loose_cause(problem, trial, claim, tries) {
            Some(cause) => Ok(Finding::Refused(cause)),
            None => self.leave_tree(problem, trial, claim),
        }
    }

    // What is found at an Unvisited item.
    fn read_unvisited(
        &mut self,
        problem: &Problem,
        trial: &mut Trial,
        claim: Claim,
    ) -> Result<Finding, NoMemory>
        requires state { IsState D.ops problem.now.terms claim (state_of self.old) }
        requires trial { IsTrial D.ops problem.now.terms self.old.cells self.old.trail trial.old }
        ensures found { IfOk result (λ finding. IsFound D.ops problem.now claim Unvisited [] (state_of self.old) finding (state_of self.new)) }
        ensures splits { self.new.splits ≡ self.old.splits }
        ensures trial { OnOk result (IsTrial D.ops problem.now.terms self.new.cells self.new.trail trial.new) }
    {
        match unvisited_cause(claim, self.opened) {
            Some(cause) => Ok(Finding::Refused(cause)),
            None => self.leave_tree(problem, trial, claim),
        }
    }

    /// What is found at an item, before which Try items of these pairs stand directly.
    pub(crate) fn read_line(
        &mut self,
        problem: &Problem,
        trial: &mut Trial,
        claim: Claim,
        tries: &[(u32, u128)],
        line: Line,
    ) -> Result<Finding, NoMemory>
        requires state { IsState D.ops problem.now.terms claim (state_of self.old) }
        requires splits { self.old.splits + 1 < 2 ^ 64 }
        requires trial { IsTrial D.ops problem.now.terms self.old.cells self.old.trail trial.old }
        ensures found { IfOk result (λ finding. IsFound D.ops problem.now claim line tries.now (state_of self.old) finding (state_of self.new)) }
        ensures splits { self.new.splits ≤ self.old.splits + 1 }
        ensures trial { OnOk result (IsTrial D.ops problem.now.terms self.new.cells self.new.trail trial.new) }
    {
        match line {
            Line::Forward { term } => self.read_step(problem, trial, claim, Step::Forward { term }),
            Line::Backward { parent, place } => {
                self.read_step(problem, trial, claim, Step::Backward { parent, place })
            }
            Line::Try { .. } => Ok(Finding::Passed),
            Line::Split { term, bit } => self.read_split(problem, trial, claim, tries, term, bit),
            Line::Close { term } => self.read_close(problem, trial, claim, term),
            Line::Loose => self.read_loose(problem, trial, claim, tries),
            Line::Unvisited => self.read_unvisited(problem, trial, claim),
        }
    }
}
