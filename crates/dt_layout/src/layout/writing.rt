// The numbers of the choices, once the accesses are laid out.
use crate::known::Known;
use crate::layout::Layout;
use dt_bits::Width;

impl Layout<'_> {
    // Draws the bits that are free.
    pub(super) fn fill(&mut self) {
        for slot in self.memory.slots.iter_mut() {
            *slot = Known::of(u128::MAX, slot.filled(self.draws.draw(Width(128))));
        }
    }

    fn write_one(&self, out: &mut [u128], choice: usize, slot: usize) {
        if let Some(known) = self.memory.slots.get(slot) {
            if let Some(number) = out.get_mut(choice) {
                *number = known.bits & self.width(choice);
            }
        }
    }

    // Writes the numbers of an access.
    fn write_access(&self, out: &mut [u128], access: usize) {
        let regs = self.regs_at(access);
        for i in 0..self.program.regs {
            let choice = regs.saturating_add(i);
            self.write_one(out, choice, choice);
        }
        let inputs = self.inputs_at(access);
        for i in 0..self.program.inputs {
            let choice = inputs.saturating_add(i);
            self.write_one(out, choice, choice);
        }
        let words = inputs.saturating_add(self.program.inputs);
        for place in 0..self.program.reads {
            if let Some(Some(word)) = self.memory.made.get(self.read_at(access, place)) {
                self.write_one(out, words.saturating_add(place), self.slot_of(*word));
            }
        }
    }

    // Writes the numbers of the accesses that were placed.
    pub(super) fn write(&self, out: &mut [u128]) {
        for (access, placed) in self.placed.iter().enumerate() {
            if *placed {
                self.write_access(out, access);
            }
        }
    }
}
