// Where the numbers of an access stand among the choices, and their words among the slots.
use crate::layout::Layout;

impl Layout<'_> {
    // Where the registers of an access's context begin among the choices.
    pub(super) fn regs_at(&self, access: usize) -> usize {
        match self.requests.accesses.get(access) {
            Some(wish) => (wish.context as usize).saturating_mul(self.program.regs),
            None => 0,
        }
    }

    // Where the inputs of an access begin.
    pub(super) fn inputs_at(&self, access: usize) -> usize {
        let step = self.program.inputs.saturating_add(self.program.reads);
        self.requests
            .contexts
            .len()
            .saturating_mul(self.program.regs)
            .saturating_add(access.saturating_mul(step))
    }

    // The place of a read of an access among all reads.
    pub(super) fn read_at(&self, access: usize, place: usize) -> usize {
        access
            .saturating_mul(self.program.reads)
            .saturating_add(place)
    }

    // The slot of a word.
    pub(super) fn slot_of(&self, word: usize) -> usize {
        self.widths.len().saturating_add(word)
    }

    pub(super) fn width(&self, choice: usize) -> u128 {
        match self.widths.get(choice) {
            Some(width) => *width,
            None => 0,
        }
    }
}
