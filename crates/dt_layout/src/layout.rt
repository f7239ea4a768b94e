mod asking;
mod links;
mod places;
mod walking;
mod writing;

use crate::known::{Known, low};
use crate::layout::walking::Walked;
use crate::memory::Memory;
use crate::program::Program;
use crate::routes::Routes;
use crate::solver::Solver;
use dt_bits::NoMemory;
use dt_draws::Draws;
use dt_model::Accepted;
use dt_request::Requests;
use std::alloc::Global;

/// The layout of a request list: what its registers, inputs and words are, and where its tables and
/// pages lie, as far as that was found.
#[derive(Drop)]
pub struct Layout<'a> {
    requests: &'a Requests,
    program: Program,
    routes: Routes,
    solver: Solver,
    memory: Memory,
    // The memory before the access that is placed now.
    before: Memory,
    // The bits that each choice has, and what is known of it.
    widths: Vec<u128>,
    seen: Vec<Known>,
    // Which accesses were placed.
    placed: Vec<bool>,
    draws: Draws,
}

// How often all accesses are tried, and how often each of them.
const ROUNDS: u32 = 4;

const TRIES: u32 = 60;

// A number as a position.
fn position(i: usize) -> u32 {
    u32::try_from(i).unwrap_or(u32::MAX)
}

fn push_widths(
    widths: &mut Vec<u128>,
    program: &Program,
    model: &Accepted,
    requests: &Requests,
) -> Result<(), NoMemory> {
    let m = model.model();
    for _ in requests.contexts.iter() {
        for reg in m.regs.iter() {
            widths.push(low(reg.width))?;
        }
    }
    for _ in requests.accesses.iter() {
        for input in m.inputs.iter() {
            widths.push(low(input.width))?;
        }
        for _ in 0..program.reads {
            widths.push(program.words)?;
        }
    }
    Ok(())
}

impl<'a> Layout<'a> {
    /// A layout of a list of the model, in which nothing is known. All memory is taken here.
    ///
    /// # Errors
    ///
    /// `NoMemory` where memory ran out.
    pub fn new(
        alloc: Global,
        model: &'a Accepted,
        requests: &'a Requests,
        seed: u64,
    ) -> Result<Layout<'a>, NoMemory> {
        let program = Program::new(alloc, model)?;
        let mut widths = Vec::new(alloc);
        push_widths(&mut widths, &program, model, requests)?;
        let choices = widths.len();
        let accesses = requests.accesses.len();
        let reads = accesses.saturating_mul(program.reads);
        Ok(Layout {
            requests,
            routes: Routes::new(alloc, &program)?,
            solver: Solver::new(alloc, &program)?,
            memory: Memory::new(alloc, choices, reads, accesses)?,
            before: Memory::new(alloc, choices, reads, accesses)?,
            seen: vec![in alloc; Known::nothing(); choices]?,
            placed: vec![in alloc; false; accesses]?,
            program,
            widths,
            draws: Draws::new(seed),
        })
    }

    /// This is known of a choice, by its number.
    pub fn see(&mut self, choice: usize, mask: u128, value: u128) {
        if let Some(known) = self.seen.get_mut(choice) {
            *known = Known::of(mask, value);
        }
    }

    // Lays out one access. False where that wasn't found.
    fn place(&mut self, access: usize) -> bool {
        let (regs, inputs) = (self.regs_at(access), self.inputs_at(access));
        self.solver.begin(regs, inputs);
        self.ask_rules();
        self.ask_names(access);
        let mut at = 0;
        for _ in 0..self.program.steps.len() {
            match self.walk(access, at) {
                Walked::On(next) => at = next,
                Walked::Ended => {
                    return self
                        .solver
                        .meet(&self.program, &mut self.memory.slots, 0, &mut self.draws);
                }
                Walked::Stuck => return false,
            }
        }
        false
    }

    // Tries one access again and again.
    fn place_somehow(&mut self, access: usize) -> bool {
        if !self.routes.plan(&self.program, self.requests, access) {
            return false;
        }
        self.before.become_as(&self.memory);
        for _ in 0..TRIES {
            if self.place(access) {
                return true;
            }
            self.memory.become_as(&self.before);
            if self.solver.is_spent() {
                return false;
            }
        }
        false
    }

    // Lays out all accesses, in order. False where one of them wasn't.
    fn place_all(&mut self) -> bool {
        self.memory.begin(&self.seen, self.requests.lo);
        let mut all = true;
        for access in 0..self.requests.accesses.len() {
            let placed = self.place_somehow(access);
            if let Some(place) = self.placed.get_mut(access) {
                *place = placed;
            }
            all = all && placed;
        }
        all
    }

    // Lays out all accesses, in as many rounds as it takes.
    fn lay_out(&mut self) {
        self.solver.refuel();
        for _ in 0..ROUNDS {
            if self.place_all() || self.solver.is_spent() {
                return;
            }
        }
    }

    /// Lays everything out anew, and writes the numbers of the choices of each access for which
    /// that was found; the other numbers stay. It takes no memory.
    pub fn write_numbers(&mut self, out: &mut [u128]) {
        self.lay_out();
        self.fill();
        self.write(out);
    }
}
