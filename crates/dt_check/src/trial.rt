ghost use Rattle.std.specs.Prelude.{◌≡◌, ◌<◌, ◌≤◌, All, length, slice_index, slice_set, replicate, true, false, if◌then◌else◌};
ghost use Rattle.std.specs.List.{list_all};
ghost use Rattle.dt_terms.specs.Terms.{choices_of, is_choice, term_at};
ghost use Rattle.dt_box.specs.Cells.{AreCells};
ghost use Rattle.dt_box.specs.Trails.{terms_of};
ghost use Rattle.dt_check.specs.Trials.{pick_at, picks, tried};
ghost use Rattle.dt_check.specs.Tests.{is_try};
ghost use Rattle.dt_check.specs.Noting.{AreChoices, AreNoted};

use crate::evaluation::Evaluation;
use crate::marks::Marks;
use dt_bits::NoMemory;
use dt_box::{Cells, Step, Trail, Watches};
use dt_domain::Domain;
use dt_terms::Problem;
use std::alloc::Global;

// Whether the number names a choice whose cell holds the value.
fn holds_try<D: Domain>(problem: &Problem, cells: &Cells<D>, choice: u32, value: u128) -> bool
    requires { AreCells D.ops problem.now.terms cells.now }
    ensures { result ≡ is_try D.ops problem.now.terms cells.now (choice, value) }
{
    if choice >= problem.choice_count() {
        return false;
    }
    match problem.choice_term(choice) {
        None => false,
        Some(term) => cells.get(term).holds(value),
    }
}

/// Whether each of these pairs names a choice, and a value that the choice's cell holds.
pub(crate) fn hold_tries<D: Domain>(
    problem: &Problem,
    cells: &Cells<D>,
    tries: &[(u32, u128)],
) -> bool
    requires { AreCells D.ops problem.now.terms cells.now }
    ensures { result ≡ list_all (is_try D.ops problem.now.terms cells.now) tries.now }
{
    for tried in tries {
        if !holds_try(problem, cells, tried.0, tried.1) {
            return false;
        }
    }
    true
}

// The pick of a term's cell.
fn pick_at<D: Domain>(cells: &Cells<D>, term: u32) -> u128
    requires { term < length cells.now }
    ensures { result ≡ pick_at D.ops cells.now term }
{
    cells.get(term).pick().unwrap_or(0)
}

/// The pick of a choice's cell.
pub fn pick_of<D: Domain>(problem: &Problem, cells: &Cells<D>, choice: u32) -> u128
    requires cells { AreCells D.ops problem.now.terms cells.now }
    requires choice { choice < length (choices_of problem.now.terms) }
    ensures { result ≡ pick_at D.ops cells.now (slice_index (choices_of problem.now.terms) choice) }
{
    match problem.choice_term(choice) {
        None => 0,
        Some(term) => pick_at(cells, term),
    }
}

/// Writes the pick of each choice's cell.
pub fn write_picks<D: Domain>(problem: &Problem, cells: &Cells<D>, out: &mut [u128])
    requires cells { AreCells D.ops problem.now.terms cells.now }
    requires count { length out.old ≡ length (choices_of problem.now.terms) }
    ensures { out.new ≡ picks D.ops problem.now.terms cells.now }
{
    for choice in 0..problem.choice_count() {
        out[choice as usize] = pick_of(problem, cells, choice);
    }
}

/// Writes the assignment that is tried: the picks of the choices' cells, and over them each pair, the
/// last one for a choice last.
pub fn write_tried<D: Domain>(
    problem: &Problem,
    cells: &Cells<D>,
    tries: &[(u32, u128)],
    out: &mut [u128],
)
    requires cells { AreCells D.ops problem.now.terms cells.now }
    requires count { length out.old ≡ length (choices_of problem.now.terms) }
    requires tries { All (λ pair. pair.0 < length (choices_of problem.now.terms)) tries.now }
    ensures { out.new ≡ tried D.ops problem.now.terms cells.now tries.now }
{
    write_picks(problem, cells, out);
    for pair in tries {
        out[pair.0 as usize] = pair.1;
    }
}

// Marks a term, where it is a choice.
fn mark_choice(problem: &Problem, term: u32, marks: &mut Marks)
    requires term { term < length problem.now.terms }
    requires count { length marks.old.marks.items ≡ length problem.now.terms }
    ensures { marks.new.marks.items ≡ (if is_choice (term_at problem.now.terms term) then slice_set marks.old.marks.items term true else marks.old.marks.items) }
{
    let _ = &problem.terms;
    if problem.terms.at(term as usize).is_choice() {
        marks.mark(term);
    }
}

// Marks the choices.
fn mark_choices(problem: &Problem, marks: &mut Marks)
    requires { marks.old.marks.items ≡ replicate (length problem.now.terms) false }
    ensures { AreChoices problem.now.terms (length problem.now.terms) marks.new.marks.items }
{
    for term in 0..problem.terms.len() as u32 {
        mark_choice(problem, term, marks);
    }
}

// Marks the choices whose cells changed between two lengths of the trail.
fn mark_changed<D: Domain>(
    problem: &Problem,
    trail: &Trail<D>,
    from: u64,
    to: u64,
    marks: &mut Marks,
)
    requires within { All (λ change. change.0 < length problem.now.terms) trail.now }
    requires order { from ≤ to }
    requires to { to ≤ length trail.now }
    requires count { length marks.old.marks.items ≡ length problem.now.terms }
    ensures { AreNoted problem.now.terms (terms_of trail.now) from to marks.old.marks.items marks.new.marks.items }
{
    for place in from..to {
        mark_choice(problem, trail.term(place), marks);
    }
}

/// What is needed to try assignments of a problem, and what is kept between two of them: which nodes use
/// each term, the values of the terms under the assignment that was tried last, and which of its numbers
/// may not be picks.
#[derive(Drop)]
pub struct Trial {
    watches: Watches,
    evaluation: Evaluation,
    // How long the trail was at the last trial, or where the cells have gone back to since.
    seen: u64,
    // The choices whose numbers may not be the picks of their cells of that time.
    changed: Marks,
}

impl Trial {
    ghost use Rattle.std.specs.Prelude.{◌≡◌, ◌<◌, ◌≤◌, [], All, length, take, slice_index, slice_set, true, false, IsTrue, IfOk};
    ghost use Rattle.std.specs.List.{list_all};
    ghost use Rattle.dt_terms.specs.Terms.{is_choice, term_at, choices_of};
    ghost use Rattle.dt_terms.specs.Values.{solves};
    ghost use Rattle.dt_box.specs.Cells.{AreCells};
    ghost use Rattle.dt_box.specs.Steps.{IsStep, after_step};
    ghost use Rattle.dt_box.specs.Stillness.{HasNoEmpty};
    ghost use Rattle.dt_box.specs.Trails.{back};
    ghost use Rattle.dt_check.specs.Evaluating.{numbers_of};
    ghost use Rattle.dt_check.specs.Marks.{HasNone};
    ghost use Rattle.dt_check.specs.Trials.{picks, tried};
    ghost use Rattle.dt_check.specs.Tests.{is_try};
    ghost use Rattle.dt_check.specs.Trying.{IsNew, IsTrial, IsTrying};

    /// Made for the problem, of which nothing was tried yet. It goes four times over the terms; nothing
    /// takes memory afterwards.
    pub fn new(alloc: Global, problem: &Problem) -> Result<Trial, NoMemory>
        ensures { IfOk result (λ trial. IsNew problem.now.terms trial) }
    {
        let mut changed = Marks::new(alloc, problem.terms.len())?;
        mark_choices(problem, &mut changed);
        Ok(Trial {
            watches: Watches::new(alloc, problem)?,
            evaluation: Evaluation::new(alloc, problem)?,
            seen: 0,
            changed,
        })
    }

    /// Which nodes use each term.
    pub fn watches(&self) -> &Watches
        ensures { result.now ≡ self.now.watches }
    {
        &self.watches
    }

    /// The values of the terms under the assignment that was tried last.
    pub fn values(&self) -> &[u128]
        ensures { result.now ≡ self.now.evaluation.values.items }
    {
        self.evaluation.values()
    }

    /// The cells go back as by `Cells::undo`, and the trial follows them. It takes no memory.
    pub fn undo<D: Domain>(
        &mut self,
        problem: &Problem,
        cells: &mut Cells<D>,
        trail: &mut Trail<D>,
        to: u64,
    )
        requires cells { AreCells D.ops problem.now.terms cells.old }
        requires within { All (λ change. change.0 < length cells.old) trail.old }
        requires to { to ≤ length trail.old }
        requires trial { IsTrial D.ops problem.now.terms cells.old trail.old self.old }
        ensures cells { cells.new ≡ back cells.old trail.old to }
        ensures trail { trail.new ≡ take to trail.old }
        ensures trial { IsTrial D.ops problem.now.terms cells.new trail.new self.new }
    {
        let seen = to.min(self.seen);
        mark_changed(problem, trail, seen, self.seen, &mut self.changed);
        self.seen = seen;
        cells.undo(trail, to);
    }

    /// The cells take a step as by `Cells::apply`, where the trail is empty and stays so, and the trial
    /// follows them. It takes no memory.
    pub(crate) fn apply<D: Domain>(&mut self, problem: &Problem, cells: &mut Cells<D>, step: Step)
        requires cells { AreCells D.ops problem.now.terms cells.old }
        requires step { IsStep problem.now.terms step }
        requires trial { IsTrial D.ops problem.now.terms cells.old [] self.old }
        ensures cells { cells.new ≡ after_step D.ops problem.now.terms step cells.old }
        ensures are { AreCells D.ops problem.now.terms cells.new }
        ensures trial { IsTrial D.ops problem.now.terms cells.new [] self.new }
    {
        let _ = &problem.terms;
        cells.apply(problem, step);
        mark_choice(problem, step.target(problem), &mut self.changed);
    }

    // Notes the choices whose cells changed since the last trial.
    fn note_changes<D: Domain>(&mut self, problem: &Problem, cells: &Cells<D>, trail: &Trail<D>)
        requires cells { AreCells D.ops problem.now.terms cells.now }
        requires within { All (λ change. change.0 < length cells.now) trail.now }
        requires trial { IsTrial D.ops problem.now.terms cells.now trail.now self.old }
        ensures trying { IsTrying D.ops problem.now.terms cells.now self.new }
        ensures seen { self.new.seen ≡ length trail.now }
    {
        let length = trail.len();
        mark_changed(problem, trail, self.seen, length, &mut self.changed);
        self.seen = length;
    }

    // Gives a choice that was noted the pick of its cell.
    fn take_pick<D: Domain>(&mut self, problem: &Problem, cells: &Cells<D>, term: u32)
        requires cells { AreCells D.ops problem.now.terms cells.now }
        requires held { HasNoEmpty D.ops cells.now }
        requires term { term < length problem.now.terms }
        requires choice { IsTrue (is_choice (term_at problem.now.terms term)) }
        requires trying { IsTrying D.ops problem.now.terms cells.now self.old }
        ensures trying { IsTrying D.ops problem.now.terms cells.now self.new }
        ensures changed { self.new.changed.marks.items ≡ slice_set self.old.changed.marks.items term false }
        ensures seen { self.new.seen ≡ self.old.seen }
    {
        self.changed.unmark(term);
        let number = pick_at(cells, term);
        self.evaluation
            .set_choice(problem, &self.watches, term, number);
    }

    // Gives each choice that was noted the pick of its cell.
    fn take_picks<D: Domain>(&mut self, problem: &Problem, cells: &Cells<D>)
        requires cells { AreCells D.ops problem.now.terms cells.now }
        requires held { HasNoEmpty D.ops cells.now }
        requires trying { IsTrying D.ops problem.now.terms cells.now self.old }
        ensures trying { IsTrying D.ops problem.now.terms cells.now self.new }
        ensures numbers { numbers_of problem.now.terms self.new.evaluation.values.items ≡ picks D.ops problem.now.terms cells.now }
        ensures seen { self.new.seen ≡ self.old.seen }
    {
        let _ = &problem.terms;
        let mut from = 0;
        'choices: while let Some(term) = self.changed.next(from) {
            self.take_pick(problem, cells, term as u32);
            from = term + 1;
        }
        self.changed.clear();
    }

    // Gives a choice a number, and notes it.
    fn take_try<D: Domain>(
        &mut self,
        problem: &Problem,
        cells: &Cells<D>,
        choice: u32,
        number: u128,
    )
        requires cells { AreCells D.ops problem.now.terms cells.now }
        requires held { is_try D.ops problem.now.terms cells.now (choice, number) ≡ true }
        requires trying { IsTrying D.ops problem.now.terms cells.now self.old }
        ensures trying { IsTrying D.ops problem.now.terms cells.now self.new }
        ensures numbers { numbers_of problem.now.terms self.new.evaluation.values.items ≡ slice_set (numbers_of problem.now.terms self.old.evaluation.values.items) choice number }
        ensures seen { self.new.seen ≡ self.old.seen }
    {
        let _ = &problem.terms;
        match problem.choice_term(choice) {
            Some(term) => {
                self.changed.mark(term);
                self.evaluation
                    .set_choice(problem, &self.watches, term, number);
            }
            None => {}
        }
    }

    // Gives each choice that is named its number, and notes it; the last pair for a choice stands.
    fn take_tries<D: Domain>(&mut self, problem: &Problem, cells: &Cells<D>, tries: &[(u32, u128)])
        requires cells { AreCells D.ops problem.now.terms cells.now }
        requires tries { list_all (is_try D.ops problem.now.terms cells.now) tries.now ≡ true }
        requires trying { IsTrying D.ops problem.now.terms cells.now self.old }
        requires numbers { numbers_of problem.now.terms self.old.evaluation.values.items ≡ picks D.ops problem.now.terms cells.now }
        ensures trying { IsTrying D.ops problem.now.terms cells.now self.new }
        ensures numbers { numbers_of problem.now.terms self.new.evaluation.values.items ≡ tried D.ops problem.now.terms cells.now tries.now }
        ensures seen { self.new.seen ≡ self.old.seen }
    {
        for pair in tries {
            self.take_try(problem, cells, pair.0, pair.1);
        }
    }

    /// Whether the assignment that these pairs and the picks of the cells give solves the problem. It
    /// takes the pick of each choice whose cell changed since the last trial, or for which a number was
    /// tried then, looks at the required terms, and evaluates the terms that use one whose value differs
    /// from the last trial's. It takes no memory.
    pub fn solves<D: Domain>(
        &mut self,
        problem: &Problem,
        cells: &Cells<D>,
        trail: &Trail<D>,
        tries: &[(u32, u128)],
    ) -> bool
        requires cells { AreCells D.ops problem.now.terms cells.now }
        requires held { HasNoEmpty D.ops cells.now }
        requires within { All (λ change. change.0 < length cells.now) trail.now }
        requires tries { list_all (is_try D.ops problem.now.terms cells.now) tries.now ≡ true }
        requires trial { IsTrial D.ops problem.now.terms cells.now trail.now self.old }
        ensures solves { result ≡ solves problem.now (tried D.ops problem.now.terms cells.now tries.now) }
        ensures trial { IsTrial D.ops problem.now.terms cells.now trail.now self.new }
    {
        self.note_changes(problem, cells, trail);
        self.take_picks(problem, cells);
        self.take_tries(problem, cells, tries);
        self.evaluation.eval(problem, &self.watches)
    }
}
