ghost use Rattle.std.specs.Prelude.{◌≡◌, ◌==◌, ◌<◌, ◌++◌, ◌∷◌, [], length, IfOk, OnOk, if◌then◌else◌};
ghost use Rattle.dt_terms.specs.Terms.{choices_of};
ghost use Rattle.dt_box.specs.Cells.{AreCells};
ghost use Rattle.dt_check.specs.Trials.{picks};
ghost use Rattle.dt_check.specs.Records.{aimed};
ghost use Rattle.dt_solve.specs.Tries.{held_or_picks, tries_from};

use crate::proposer::Proposer;
use dt_bits::NoMemory;
use dt_box::{Cells, Trail};
use dt_check::{Trial, pick_of, write_picks};
use dt_domain::Domain;
use dt_terms::Problem;
use std::alloc::Global;

// The number of a choice where its cell holds it, else the cell's pick.
fn hold_one<D: Domain>(problem: &Problem, cells: &Cells<D>, choice: u32, numbers: &[u128]) -> u128
    requires cells { AreCells D.ops problem.now.terms cells.now }
    requires choice { choice < length (choices_of problem.now.terms) }
    requires count { length numbers.now ≡ length (choices_of problem.now.terms) }
    ensures { result ≡ aimed D.ops problem.now.terms cells.now numbers.now choice }
{
    let value = numbers[choice as usize];
    match problem.choice_term(choice) {
        None => 0,
        Some(term) => if cells.get(term).holds(value) {
            value
        } else {
            pick_of(problem, cells, choice)
        },
    }
}

// Replaces each number that its choice's cell doesn't hold by the cell's pick.
fn hold_all<D: Domain>(problem: &Problem, cells: &Cells<D>, out: &mut [u128])
    requires cells { AreCells D.ops problem.now.terms cells.now }
    requires count { length out.old ≡ length (choices_of problem.now.terms) }
    ensures { out.new ≡ held_or_picks D.ops problem.now.terms cells.now out.old }
{
    for choice in 0..problem.choice_count() {
        out[choice as usize] = hold_one(problem, cells, choice, out);
    }
}

// Notes the number of a choice where it isn't the pick.
fn note_try(
    pairs: &mut Vec<(u32, u128)>,
    choice: u32,
    pick: u128,
    number: u128,
) -> Result<(), NoMemory>
    ensures { OnOk result (pairs.new.items ≡ pairs.old.items ++ (if pick == number then [] else (choice, number) ∷ [])) }
{
    if pick == number {
        return Ok(());
    }
    pairs.push((choice, number))?;
    Ok(())
}

// Notes each number that isn't the pick, in place of those that were noted.
fn note_tries<D: Domain>(
    problem: &Problem,
    cells: &Cells<D>,
    numbers: &[u128],
    pairs: &mut Vec<(u32, u128)>,
) -> Result<(), NoMemory>
    requires cells { AreCells D.ops problem.now.terms cells.now }
    requires count { length numbers.now ≡ length (choices_of problem.now.terms) }
    ensures { OnOk result (pairs.new.items ≡ tries_from 0 (picks D.ops problem.now.terms cells.now) numbers.now) }
{
    pairs.clear();
    for choice in 0..problem.choice_count() {
        let pick = pick_of(problem, cells, choice);
        note_try(pairs, choice, pick, numbers[choice as usize])?;
    }
    Ok(())
}

/// What was tried last: a number for each choice, and of these the pairs of a choice and its number
/// where that isn't the pick.
#[derive(Drop)]
pub(crate) struct Tried {
    pub(crate) numbers: Vec<u128>,
    pub(crate) pairs: Vec<(u32, u128)>,
}

impl Tried {
    ghost use Rattle.std.specs.Prelude.{◌≡◌, ◌<◌, All, length, IfOk, OnOk, IfSome};
    ghost use Rattle.dt_terms.specs.Terms.{choices_of};
    ghost use Rattle.dt_terms.specs.Values.{IsAssignment, solves};
    ghost use Rattle.dt_box.specs.Cells.{AreCells};
    ghost use Rattle.dt_box.specs.Stillness.{HasNoEmpty};
    ghost use Rattle.dt_check.specs.Trials.{HoldChoices, picks};
    ghost use Rattle.dt_check.specs.Trying.{IsTrial};
    ghost use Rattle.dt_solve.specs.Tries.{held_or_picks, tries_from};

    /// Made for the problem, with zeros.
    pub(crate) fn new(alloc: Global, problem: &Problem) -> Result<Tried, NoMemory>
        ensures { IfOk result (λ tried. length tried.numbers.items ≡ length (choices_of problem.now.terms)) }
    {
        Ok(Tried {
            numbers: vec![in alloc; 0u128; problem.choice_count() as usize]?,
            pairs: Vec::new(alloc),
        })
    }

    /// Asks for a proposal, and replaces each number that its choice's cell doesn't hold by the
    /// cell's pick.
    pub(crate) fn ask<D: Domain, P: Proposer<D>>(
        &mut self,
        problem: &Problem,
        cells: &Cells<D>,
        proposer: &mut P,
    )
        requires cells { AreCells D.ops problem.now.terms cells.now }
        requires held { HasNoEmpty D.ops cells.now }
        requires numbers { length self.old.numbers.items ≡ length (choices_of problem.now.terms) }
        ensures held { HoldChoices D.ops problem.now.terms cells.now self.new.numbers.items }
        ensures assignment { IsAssignment problem.now.terms self.new.numbers.items }
        ensures aim { P.aim proposer.new ≡ P.aim proposer.old }
        ensures told { IfSome (P.aim proposer.old) (λ aim. length aim ≡ length (choices_of problem.now.terms) → self.new.numbers.items ≡ held_or_picks D.ops problem.now.terms cells.now aim) }
    {
        let _ = &problem.terms;
        let numbers = self.numbers.as_mut_slice();
        write_picks(problem, cells, numbers);
        proposer.propose(problem, cells, numbers);
        hold_all(problem, cells, numbers);
    }

    /// Tries what is proposed, where the choices' cells hold it, and else their picks, and says
    /// whether the numbers solve the problem.
    pub(crate) fn try_numbers<D: Domain, P: Proposer<D>>(
        &mut self,
        problem: &Problem,
        cells: &Cells<D>,
        trail: &Trail<D>,
        trial: &mut Trial,
        proposer: &mut P,
    ) -> Result<bool, NoMemory>
        requires cells { AreCells D.ops problem.now.terms cells.now }
        requires held { HasNoEmpty D.ops cells.now }
        requires within { All (λ change. change.0 < length cells.now) trail.now }
        requires numbers { length self.old.numbers.items ≡ length (choices_of problem.now.terms) }
        requires trial { IsTrial D.ops problem.now.terms cells.now trail.now trial.old }
        ensures solves { IfOk result (λ found. found ≡ solves problem.now self.new.numbers.items) }
        ensures held { HoldChoices D.ops problem.now.terms cells.now self.new.numbers.items }
        ensures assignment { IsAssignment problem.now.terms self.new.numbers.items }
        ensures aim { P.aim proposer.new ≡ P.aim proposer.old }
        ensures told { IfSome (P.aim proposer.old) (λ aim. length aim ≡ length (choices_of problem.now.terms) → self.new.numbers.items ≡ held_or_picks D.ops problem.now.terms cells.now aim) }
        ensures pairs { OnOk result (self.new.pairs.items ≡ tries_from 0 (picks D.ops problem.now.terms cells.now) self.new.numbers.items) }
        ensures trial { OnOk result (IsTrial D.ops problem.now.terms cells.now trail.now trial.new) }
    {
        self.ask(problem, cells, proposer);
        note_tries(problem, cells, &self.numbers, &mut self.pairs)?;
        Ok(trial.solves(problem, cells, trail, &self.pairs))
    }
}
