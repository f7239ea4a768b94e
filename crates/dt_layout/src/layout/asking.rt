// What rules and demands ask of registers, inputs, words and addresses.
use crate::known::Known;
use crate::layout::{Layout, position};
use crate::site::in_span;
use dt_request::{Demand, Quantity};

impl Layout<'_> {
    // Asks for the bits of an expression, and chooses until it has them.
    pub(super) fn force(&mut self, root: usize, want: Known) -> bool {
        self.solver.force(
            &self.program,
            &mut self.memory.slots,
            root,
            want,
            &mut self.draws,
        )
    }

    pub(super) fn known(&mut self, root: usize) -> Known {
        self.solver.known(&self.program, &self.memory.slots, root)
    }

    pub(super) fn follow(&mut self) -> bool {
        self.solver.follow(&self.program, &mut self.memory.slots)
    }

    // Asks that the rules hold.
    pub(super) fn ask_rules(&mut self) {
        for rule in self.program.context_rules.iter() {
            self.solver.add(*rule, Known::truth(true));
        }
        for rule in self.program.access_rules.iter() {
            self.solver.add(*rule, Known::truth(true));
        }
    }

    // What a demand asks of a number of which so much is known, where it is on that number.
    fn asked(&mut self, demand: &Demand, quantity: Quantity, all: u128, known: Known) -> Known {
        match demand {
            Demand::Bits { of, mask, value } if *of == quantity => Known::of(*mask & all, *value),
            Demand::Span { of, lo, hi } if *of == quantity => {
                in_span(known, all, *lo, *hi, &mut self.draws)
            }
            _ => Known::nothing(),
        }
    }

    // Asks a slot for what the demands ask of its number.
    pub(super) fn ask_slot(&mut self, access: usize, quantity: Quantity, all: u128, slot: usize) {
        let requests = self.requests;
        if let Some(wish) = requests.accesses.get(access) {
            for demand in wish.demands.iter() {
                let known = match self.memory.slots.get(slot) {
                    Some(known) => *known,
                    None => Known::nothing(),
                };
                let want = self.asked(demand, quantity, all, known);
                self.solver.ask_slot(&mut self.memory.slots, slot, want);
            }
        }
    }

    // Asks an expression for what the demands ask of its number.
    pub(super) fn ask_expression(&mut self, access: usize, quantity: Quantity, root: usize) {
        let requests = self.requests;
        let all = self.program.addresses;
        if let Some(wish) = requests.accesses.get(access) {
            for demand in wish.demands.iter() {
                let known = self.known(root);
                let want = self.asked(demand, quantity, all, known);
                if want.mask != 0 {
                    self.solver.add(root, want);
                }
            }
        }
    }

    // Asks for what the demands ask of registers and inputs.
    pub(super) fn ask_names(&mut self, access: usize) {
        let regs = self.regs_at(access);
        for i in 0..self.program.regs {
            let slot = regs.saturating_add(i);
            let all = self.width(slot);
            self.ask_slot(access, Quantity::Reg(position(i)), all, slot);
        }
        let inputs = self.inputs_at(access);
        for i in 0..self.program.inputs {
            let slot = inputs.saturating_add(i);
            let all = self.width(slot);
            self.ask_slot(access, Quantity::Input(position(i)), all, slot);
        }
    }
}
