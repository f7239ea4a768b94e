//! Cells and steps. Cells hold what is known of each term of a problem, one domain for each. A step
//! goes from a node's operands to the node, or from a node to one of its operands, and narrows the
//! cell that it goes to by what the cells of these neighbours say. All is written over the trait of
//! domains alone.
//!
//! Proved: `root`, `copy`, `apply` and `set_bit` give exactly the cells that their definitions say
//! (`specs/Cells.antt`, `specs/Steps.antt`), which are cells of the problem again; `apply` and
//! `set_bit` say exactly what became of the cell (`specs/Changes.antt`); `empty_cell` gives the
//! first empty cell; `tells` is exactly whether a step empties its target's cell or makes a further
//! bit of it known; `unsettled` gives a step that does so, and none exactly where the cells are
//! settled (`specs/Stillness.antt`). Root cells hold every assignment that solves the problem, and
//! steps and fitting bits keep what is held (`keeps_assignments`; `proofs/Assignments.antt` has the
//! lemmas to cite). What a step does depends on the cells of its node and that node's operands alone
//! (`steps_are_local`): where an operator has no operand, the full domain of one bit is handed in.
//!
//! `apply_kept` and `set_bit_kept` do what `apply` and `set_bit` do, and keep in a `Trail` what the
//! cell was, exactly where the answer isn't `No`; `undo` gives exactly the cells and the trail of the
//! time when the trail had that length, and `Trail::term` the term of a pair (`specs/Trails.antt`). `Watches` lists exactly the nodes that
//! use each term (`specs/Watching.antt`). `is_settled_since` is true exactly at settled cells, and
//! looks only near what changed; where all bits of a node and its operands are known, the operator is
//! evaluated once in place of trying the node's steps.
//!
//! A cell takes what its domain takes, and a kept change 16 bytes more. Only
//! `root`, `copy`, `Watches::new` and the kept calls take memory. A step costs one call of
//! the domain's `narrowed_forward` or `narrowed_backward`, and writes only where the cell changes;
//! `unsettled` goes at most once over all steps. `dt_box_bench` measures them: over pairs, whose
//! cells take 96 bytes, 4,000,000 terms of 80 bytes were built in 0.2 seconds and their root cells
//! made in 0.3. `tests/steps.py` compares steps like those of a search with the same algorithm in C.
//!
//! Only tested, in programs above: that calls which take memory succeed where there is enough.
#![tactic(auto)]

mod cells;
mod change;
mod fixed;
mod laws;
mod near;
mod propagation;
mod root;
mod step;
mod sweep;
mod trail;
mod watches;

pub use cells::Cells;
pub use laws::{keeps_assignments, steps_are_local};
pub use step::{Changed, Step};
pub use trail::Trail;
pub use watches::Watches;
