// What the walk of one access asks of registers, inputs and words, and what is chosen to meet it.
use crate::backward::{Asked, Choosing, backward};
use crate::forward::{Operand, forward};
use crate::known::{Known, low};
use crate::program::{Kind, Part, Program};
use dt_bits::{NoMemory, Width};
use dt_draws::Draws;
use std::alloc::Global;

/// What a variable has: nothing yet, the word in a slot, or an expression of which so much was known
/// when it was last looked at.
#[derive(Clone, Copy)]
pub enum Bound {
    Nothing,
    Word(usize),
    Value { root: usize, known: Known },
}

/// An expression, by its last part, and what is asked of it.
#[derive(Clone, Copy)]
struct Goal {
    root: usize,
    want: Known,
    met: bool,
}

/// What is asked in the walk of one access.
#[derive(Drop)]
pub struct Solver {
    goals: Vec<Option<Goal>>,
    count: usize,
    // What is known and asked of each part.
    now: Vec<Known>,
    wants: Vec<Known>,
    vars: Vec<Bound>,
    // Where the registers and inputs begin among the slots.
    regs: usize,
    inputs: usize,
    // Two goals can't both be met.
    failed: bool,
    // More became known.
    moved: bool,
    // How many parts may still be looked at.
    fuel: u64,
}

// How often all goals are gone through.
const PASSES: u32 = 64;

// How many choices are made for one access.
const CHOICES: u32 = 1024;

// How many parts are looked at in one proposal.
const FUEL: u64 = 4_000_000;

// Where an access has its goals beside those of nodes and rules.
const SPARE: usize = 256;

impl Solver {
    /// A solver for the expressions of a model.
    pub fn new(alloc: Global, program: &Program) -> Result<Solver, NoMemory> {
        let goals = program.steps.len().saturating_mul(4).saturating_add(SPARE);
        Ok(Solver {
            goals: vec![in alloc; None; goals]?,
            count: 0,
            now: vec![in alloc; Known::nothing(); program.parts.len()]?,
            wants: vec![in alloc; Known::nothing(); program.parts.len()]?,
            vars: vec![in alloc; Bound::Nothing; program.vars]?,
            regs: 0,
            inputs: 0,
            failed: false,
            moved: false,
            fuel: 0,
        })
    }

    /// Much may be looked at again.
    pub fn refuel(&mut self) {
        self.fuel = FUEL;
    }

    /// Whether nothing more may be looked at.
    pub fn is_spent(&self) -> bool {
        self.fuel == 0
    }

    /// Nothing is asked; registers and inputs begin at these slots.
    pub fn begin(&mut self, regs: usize, inputs: usize) {
        self.count = 0;
        for var in self.vars.iter_mut() {
            *var = Bound::Nothing;
        }
        self.regs = regs;
        self.inputs = inputs;
        self.failed = false;
    }

    /// Binds a variable.
    pub fn bind(&mut self, var: u32, bound: Bound) {
        if let Some(place) = self.vars.get_mut(var as usize) {
            *place = bound;
        }
    }

    // The slot of a register, an input or a variable that has a word.
    fn slot_of(&self, kind: Kind) -> Option<usize> {
        match kind {
            Kind::Reg(i) => Some(self.regs.saturating_add(i as usize)),
            Kind::Input(i) => Some(self.inputs.saturating_add(i as usize)),
            Kind::Var(x) => match self.vars.get(x as usize) {
                Some(Bound::Word(slot)) => Some(*slot),
                _ => None,
            },
            _ => None,
        }
    }

    fn known_at(&self, part: usize) -> Known {
        match self.now.get(part) {
            Some(known) => *known,
            None => Known::nothing(),
        }
    }

    fn operand(&self, program: &Program, part: usize) -> Operand {
        Operand {
            width: program.width(part),
            known: self.known_at(part),
        }
    }

    // What is known of a part, whose operands were looked at.
    fn look(&self, program: &Program, slots: &[Known], part: &Part) -> Known {
        match part.kind {
            Kind::Number(bits) => Known::of(low(part.width), bits),
            Kind::Apply(op) => forward(
                op,
                part.width,
                self.operand(program, part.a),
                self.operand(program, part.b),
                self.operand(program, part.c),
            ),
            leaf => self.look_at_leaf(slots, leaf),
        }
    }

    fn look_at_leaf(&self, slots: &[Known], leaf: Kind) -> Known {
        if let Some(slot) = self.slot_of(leaf) {
            return match slots.get(slot) {
                Some(known) => *known,
                None => Known::nothing(),
            };
        }
        if let Kind::Var(x) = leaf {
            if let Some(Bound::Value { known, .. }) = self.vars.get(x as usize) {
                return *known;
            }
        }
        Known::nothing()
    }

    /// What is known of an expression.
    pub fn known(&mut self, program: &Program, slots: &[Known], root: usize) -> Known {
        let first = program.part(root).first;
        for at in first..root.saturating_add(1) {
            let part = program.part(at);
            let known = self.look(program, slots, &part);
            if let Some(place) = self.now.get_mut(at) {
                *place = known;
            }
        }
        let looked = root.saturating_sub(first) as u64;
        self.fuel = self.fuel.saturating_sub(looked.saturating_add(1));
        self.known_at(root)
    }

    fn want_at(&self, part: usize) -> Known {
        match self.wants.get(part) {
            Some(want) => *want,
            None => Known::nothing(),
        }
    }

    fn ask(&mut self, part: usize, want: Known) {
        if let Some(place) = self.wants.get_mut(part) {
            *place = want;
        }
    }

    /// Asks for the bits of a slot.
    pub fn ask_slot(&mut self, slots: &mut [Known], slot: usize, want: Known) {
        if let Some(known) = slots.get_mut(slot) {
            if known.disagrees(&want) {
                self.failed = true;
            } else if !known.covers(want.mask) {
                *known = known.with(&want);
                self.moved = true;
            }
        }
    }

    // Asks for the bits of a name.
    fn ask_leaf(&mut self, slots: &mut [Known], leaf: Kind, want: Known) {
        if let Some(slot) = self.slot_of(leaf) {
            self.ask_slot(slots, slot, want);
        } else if let Kind::Var(x) = leaf {
            if let Some(Bound::Value { root, known }) = self.vars.get(x as usize) {
                let (root, known) = (*root, *known);
                if known.disagrees(&want) {
                    self.failed = true;
                } else if !known.covers(want.mask) {
                    self.add(root, want);
                }
            }
        }
    }

    // Asks for what a part's operands must be.
    fn ask_operands(&mut self, program: &Program, at: usize, part: &Part, choosing: Choosing) {
        let want = self.want_at(at);
        let asked = match part.kind {
            Kind::Apply(op) if want.mask != 0 => backward(
                op,
                want,
                self.known_at(at),
                self.operand(program, part.a),
                self.operand(program, part.b),
                self.operand(program, part.c),
                choosing,
            ),
            _ => Asked {
                a: Known::nothing(),
                b: Known::nothing(),
                c: Known::nothing(),
            },
        };
        self.ask(part.a, asked.a);
        self.ask(part.b, asked.b);
        self.ask(part.c, asked.c);
    }

    // Asks for what an expression's names must be, so that it has what is asked of it.
    fn push_down(
        &mut self,
        program: &Program,
        slots: &mut [Known],
        goal: &Goal,
        choosing: Choosing,
    ) {
        let first = program.part(goal.root).first;
        self.ask(goal.root, goal.want);
        for at in (first..goal.root.saturating_add(1)).rev() {
            let part = program.part(at);
            let want = self.want_at(at);
            if want.mask != 0 {
                self.ask_leaf(slots, part.kind, want);
            }
            self.ask_operands(program, at, &part, choosing);
        }
    }

    fn goal(&self, at: usize) -> Option<Goal> {
        match self.goals.get(at) {
            Some(goal) => *goal,
            None => None,
        }
    }

    // Looks at a goal, and asks for what it needs. A goal of which all is known is met.
    fn pursue(&mut self, program: &Program, slots: &mut [Known], at: usize, choosing: Choosing) {
        let goal = match self.goal(at) {
            Some(goal) if !goal.met => goal,
            _ => return,
        };
        let known = self.known(program, slots, goal.root);
        if known.disagrees(&goal.want) {
            self.failed = true;
        } else if known.covers(goal.want.mask) {
            if let Some(place) = self.goals.get_mut(at) {
                *place = Some(Goal { met: true, ..goal });
            }
        } else {
            self.push_down(program, slots, &goal, choosing);
        }
    }

    // Whether the same was asked already.
    fn is_asked(&self, root: usize, want: Known) -> bool {
        self.goals.iter().take(self.count).any(|goal| match goal {
            Some(goal) => goal.root == root
                && goal.want.covers(want.mask)
                && !goal.want.disagrees(&want),
            None => false,
        })
    }

    /// Asks for the bits of an expression.
    pub fn add(&mut self, root: usize, want: Known) {
        if self.is_asked(root, want) {
            return;
        }
        let goal = Goal {
            root,
            want,
            met: false,
        };
        match self.goals.get_mut(self.count) {
            Some(place) => {
                *place = Some(goal);
                self.count = self.count.saturating_add(1);
                self.moved = true;
            }
            None => self.failed = true,
        }
    }

    // Looks again at the variables that have expressions.
    fn refresh(&mut self, program: &Program, slots: &[Known]) {
        for var in 0..self.vars.len() {
            if let Some(Bound::Value { root, .. }) = self.vars.get(var) {
                let root = *root;
                let known = self.known(program, slots, root);
                if let Some(place) = self.vars.get_mut(var) {
                    *place = Bound::Value { root, known };
                }
            }
        }
    }

    /// Takes all that follows from the goals. False where they can't be met.
    pub fn follow(&mut self, program: &Program, slots: &mut [Known]) -> bool {
        for _ in 0..PASSES {
            self.moved = false;
            self.refresh(program, slots);
            for at in 0..self.count {
                self.pursue(program, slots, at, Choosing::Never);
            }
            if self.failed || self.fuel == 0 {
                return false;
            }
            if !self.moved {
                return true;
            }
        }
        true
    }

    // The first goal from a position on that isn't met.
    fn open_from(&self, from: usize) -> Option<usize> {
        for at in from..self.count {
            match self.goal(at) {
                Some(goal) if !goal.met => return Some(at),
                _ => {}
            }
        }
        None
    }

    /// Chooses until all goals from a position on are met. False where that wasn't found.
    pub fn meet(
        &mut self,
        program: &Program,
        slots: &mut [Known],
        from: usize,
        draws: &mut Draws,
    ) -> bool {
        for _ in 0..CHOICES {
            if !self.follow(program, slots) {
                return false;
            }
            match self.open_from(from) {
                None => return true,
                Some(at) => {
                    self.moved = false;
                    let dice = draws.draw(Width(128));
                    self.pursue(program, slots, at, Choosing::By(dice));
                    if !self.moved {
                        return false;
                    }
                }
            }
        }
        false
    }

    /// Asks for the bits of an expression, and chooses until it has them. False where that wasn't
    /// found.
    pub fn force(
        &mut self,
        program: &Program,
        slots: &mut [Known],
        root: usize,
        want: Known,
        draws: &mut Draws,
    ) -> bool {
        let from = self.count;
        self.add(root, want);
        self.meet(program, slots, from, draws)
    }
}
