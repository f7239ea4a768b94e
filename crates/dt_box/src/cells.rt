use crate::change::{change_of, put};
use crate::near::are_settled_after;
use crate::propagation::{narrowed_backward, narrowed_forward, target};
use crate::root::{full_cells, require_ones, unused};
use crate::sweep::{first_empty, first_step, step_from, tells};
use crate::trail::{put_kept, undo_to};
use crate::{Changed, Step, Trail, Watches};
use dt_bits::NoMemory;
use dt_domain::Domain;
use dt_terms::Problem;
use std::alloc::Global;
use std::marker::Model;

/// What is known of each term of a problem: a domain for each.
///
/// Each call that takes a problem asks that these are cells of it: there is one domain for each
/// term, of the term's width.
#[derive(Debug, Drop)]
pub struct Cells<D: Domain> {
    cells: Vec<D>,
    // What is handed in where an operator has no operand.
    unused: D,
}

impl<D: Domain> Model for Cells<D> {
    ghost use Rattle.std.specs.Prelude.{◌≡◌, List};
    ghost use Rattle.std.specs.Coded.{coded_list};
    ghost use Rattle.dt_bits.specs.Bits.{width};
    ghost use Rattle.dt_box.specs.Cells.{AreDomains};

    ghost Value = { List D };

    ghost coded = { coded_list D.code };

    ghost view = { λ c. c.cells.items };

    ghost invariant = { λ c. AreDomains D.ops c.cells.items × (c.unused ≡ D.ops.full (width 1)) };
}

impl<D: Domain> Cells<D> {
    ghost use Rattle.std.specs.Prelude.{◌≡◌, ◌<◌, ◌≤◌, ◌↔◌, length, take, All, IsTrue, IfOk, IfSome, IfNone, MatchOption, OnOk, OnErr};
    ghost use Rattle.std.specs.Prelude.{length as count};
    ghost use Rattle.std.specs.List.{position_from};
    ghost use Rattle.dt_terms.specs.Terms.{bits_at};
    ghost use Rattle.dt_box.specs.Cells.{AreCells, cell_at, root_cells};
    ghost use Rattle.dt_box.specs.Steps.{IsStep, target, narrowed, after_step, after_bit};
    ghost use Rattle.dt_box.specs.Changes.{IsChange};
    ghost use Rattle.dt_box.specs.Stillness.{HasNoEmpty, IsSettled, IsStillAt, tells, TellsNew};
    ghost use Rattle.dt_box.specs.Trails.{back, with_change, IsKept};
    ghost use Rattle.dt_box.specs.Watching.{watches_of};

    /// The cells of what is known at first: each holds every number of its term's width, and the
    /// cell of a term that must be 1 holds 1 alone.
    pub fn root(alloc: Global, problem: &Problem) -> Result<Cells<D>, NoMemory>
        ensures cells { IfOk result (λ cells. cells ≡ root_cells D.ops problem.now) }
        ensures are { IfOk result (λ cells. AreCells D.ops problem.now.terms cells) }
    {
        let mut cells = full_cells(alloc, problem.terms.as_slice())?;
        require_ones(&mut cells, problem.required.as_slice());
        Ok(Cells {
            cells,
            unused: unused(),
        })
    }

    /// Equal cells, in memory of their own.
    pub fn copy(&self, alloc: Global) -> Result<Cells<D>, NoMemory>
        ensures { IfOk result (λ cells. cells ≡ self.now) }
    {
        Ok(Cells {
            cells: Vec::from_slice(alloc, &self.cells)?,
            unused: self.unused,
        })
    }

    /// How many cells there are.
    pub fn len(&self) -> usize
        ensures { result ≡ length self.now }
    {
        self.cells.len()
    }

    /// The domain of the term at a position.
    pub fn get(&self, term: u32) -> D
        requires { term < length self.now }
        ensures value { result ≡ cell_at D.ops self.now term }
        ensures domain { D.ops.IsDomain result }
    {
        self.cells[term as usize]
    }

    /// Takes a step of the problem: its target's cell becomes its meet with what the neighbours'
    /// cells say of it; all others stay. The answer says what became of that cell. It takes no
    /// memory.
    pub fn apply(&mut self, problem: &Problem, step: Step) -> Changed
        requires cells { AreCells D.ops problem.now.terms self.old }
        requires step { IsStep problem.now.terms step }
        ensures cells { self.new ≡ after_step D.ops problem.now.terms step self.old }
        ensures change { IsChange D.ops (cell_at D.ops self.old (target problem.now.terms step)) (narrowed D.ops problem.now.terms step self.old) result }
        ensures are { AreCells D.ops problem.now.terms self.new }
    {
        let terms = problem.terms.as_slice();
        match step {
            Step::Forward { term } => put(
                narrowed_forward(terms, &self.cells, &self.unused, term),
                &mut self.cells[term as usize],
            ),
            Step::Backward { parent, place } => put(
                narrowed_backward(terms, &self.cells, &self.unused, parent, place),
                &mut self.cells[target(terms, step) as usize],
            ),
        }
    }

    /// Takes a step as `apply` does, and keeps in the trail what the target's cell was, unless the
    /// answer is `No`. Without memory for that, cells and trail stay.
    pub fn apply_kept(
        &mut self,
        problem: &Problem,
        step: Step,
        trail: &mut Trail<D>,
    ) -> Result<Changed, NoMemory>
        requires cells { AreCells D.ops problem.now.terms self.old }
        requires step { IsStep problem.now.terms step }
        ensures cells { OnOk result (self.new ≡ after_step D.ops problem.now.terms step self.old) }
        ensures change { IfOk result (λ changed. IsChange D.ops (cell_at D.ops self.old (target problem.now.terms step)) (narrowed D.ops problem.now.terms step self.old) changed) }
        ensures trail { IfOk result (λ changed. trail.new ≡ with_change changed (target problem.now.terms step) (cell_at D.ops self.old (target problem.now.terms step)) trail.old) }
        ensures err { OnErr result ((self.new ≡ self.old) × (trail.new ≡ trail.old)) }
        ensures are { AreCells D.ops problem.now.terms self.new }
        ensures kept { IsKept self.old trail.old self.new trail.new }
    {
        let terms = problem.terms.as_slice();
        let at = target(terms, step);
        match step {
            Step::Forward { term } => put_kept(
                narrowed_forward(terms, &self.cells, &self.unused, term),
                &mut self.cells[at as usize],
                at,
                &mut trail.changes,
            ),
            Step::Backward { parent, place } => put_kept(
                narrowed_backward(terms, &self.cells, &self.unused, parent, place),
                &mut self.cells[at as usize],
                at,
                &mut trail.changes,
            ),
        }
    }

    /// Sets a bit of the term at a position: its cell becomes the one that holds what it held with
    /// the bit so; all others stay. The answer says what became of that cell. It takes no memory.
    pub fn set_bit(&mut self, problem: &Problem, term: u32, bit: u32, value: bool) -> Changed
        requires cells { AreCells D.ops problem.now.terms self.old }
        requires term { term < length problem.now.terms }
        requires bit { bit < bits_at problem.now.terms term }
        ensures cells { self.new ≡ after_bit D.ops term bit value self.old }
        ensures change { IsChange D.ops (cell_at D.ops self.old term) (D.ops.with_bit (cell_at D.ops self.old term) bit value) result }
        ensures are { AreCells D.ops problem.now.terms self.new }
    {
        let _ = &problem.terms;
        let cell = &mut self.cells[term as usize];
        let new = cell.with_bit(bit, value);
        let changed = change_of(cell, &new);
        *cell = new;
        changed
    }

    /// Sets a bit as `set_bit` does, and keeps in the trail what the cell was, unless the answer is
    /// `No`. Without memory for that, cells and trail stay.
    pub fn set_bit_kept(
        &mut self,
        problem: &Problem,
        term: u32,
        bit: u32,
        value: bool,
        trail: &mut Trail<D>,
    ) -> Result<Changed, NoMemory>
        requires cells { AreCells D.ops problem.now.terms self.old }
        requires term { term < length problem.now.terms }
        requires bit { bit < bits_at problem.now.terms term }
        ensures cells { OnOk result (self.new ≡ after_bit D.ops term bit value self.old) }
        ensures change { IfOk result (λ changed. IsChange D.ops (cell_at D.ops self.old term) (D.ops.with_bit (cell_at D.ops self.old term) bit value) changed) }
        ensures trail { IfOk result (λ changed. trail.new ≡ with_change changed term (cell_at D.ops self.old term) trail.old) }
        ensures err { OnErr result ((self.new ≡ self.old) × (trail.new ≡ trail.old)) }
        ensures are { AreCells D.ops problem.now.terms self.new }
        ensures kept { IsKept self.old trail.old self.new trail.new }
    {
        let _ = &problem.terms;
        let cell = &mut self.cells[term as usize];
        let narrowed = Some(cell.with_bit(bit, value));
        put_kept(narrowed, cell, term, &mut trail.changes)
    }

    /// The cells become what they were when the trail had this many pairs, and the trail keeps
    /// these. It takes no memory, and a write for each pair that goes.
    pub fn undo(&mut self, trail: &mut Trail<D>, length: u64)
        requires length { length ≤ count trail.old }
        requires terms { All (λ change. change.0 < count self.old) trail.old }
        ensures cells { self.new ≡ back self.old trail.old length }
        ensures trail { trail.new ≡ take length trail.old }
    {
        undo_to(&mut self.cells, &mut trail.changes, length as usize);
    }

    /// The position of the first empty cell; None exactly where no cell is empty. It takes no
    /// memory.
    pub fn empty_cell(&self) -> Option<u32>
        ensures first { result ≡ position_from D.ops.is_empty 0 self.now }
        ensures found { IfSome result (λ t. (t < length self.now) × IsTrue (D.ops.is_empty (cell_at D.ops self.now t))) }
        ensures none { IfNone result (HasNoEmpty D.ops self.now) }
    {
        first_empty(&self.cells)
    }

    /// Whether a step of the problem would empty its target's cell or make a further bit of it known.
    /// It takes no memory.
    pub fn tells(&self, problem: &Problem, step: Step) -> bool
        requires cells { AreCells D.ops problem.now.terms self.now }
        requires step { IsStep problem.now.terms step }
        ensures { result ≡ tells D.ops problem.now.terms step self.now }
    {
        tells(problem.terms.as_slice(), &self.cells, &self.unused, step)
    }

    /// A step of the term at a position that would empty a cell or make a further bit known; None
    /// exactly where it has no such step. It takes no memory.
    pub fn unsettled_at(&self, problem: &Problem, term: u32) -> Option<Step>
        requires cells { AreCells D.ops problem.now.terms self.now }
        requires term { term < length problem.now.terms }
        ensures { MatchOption result (IsStillAt D.ops problem.now.terms term self.now) (λ step. TellsNew D.ops problem.now.terms step self.now) }
    {
        step_from(problem.terms.as_slice(), &self.cells, &self.unused, term)
    }

    /// A step that would empty a cell or make a further bit known; None exactly where the cells are
    /// settled, that is where there is no such step. No cell may be empty. It takes no memory.
    pub fn unsettled(&self, problem: &Problem) -> Option<Step>
        requires cells { AreCells D.ops problem.now.terms self.now }
        requires held { HasNoEmpty D.ops self.now }
        ensures { MatchOption result (IsSettled D.ops problem.now.terms self.now) (λ step. TellsNew D.ops problem.now.terms step self.now) }
    {
        first_step(problem.terms.as_slice(), &self.cells, &self.unused)
    }

    /// Whether the cells are settled, where they were when the trail had this many pairs. It tries
    /// the cells that changed since then, and the steps that look at them, and takes no memory.
    pub fn is_settled_since(
        &self,
        problem: &Problem,
        watches: &Watches,
        trail: &Trail<D>,
        length: u64,
    ) -> bool
        requires cells { AreCells D.ops problem.now.terms self.now }
        requires watches { watches.now ≡ watches_of problem.now.terms }
        requires length { length ≤ count trail.now }
        requires terms { All (λ change. change.0 < count self.now) trail.now }
        requires settled { IsSettled D.ops problem.now.terms (back self.now trail.now length) }
        ensures { IsTrue result ↔ IsSettled D.ops problem.now.terms self.now }
    {
        are_settled_after(
            problem.terms.as_slice(),
            watches,
            &self.cells,
            &self.unused,
            &trail.changes[length as usize..],
        )
    }
}
