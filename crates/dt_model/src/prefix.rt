ghost use Rattle.std.specs.Prelude.{◌≡◌, ◌+◌, ◌≤◌, ◌||◌, nat_lt, nat_le, min, if◌then◌else◌};
ghost use Rattle.dt_model.specs.ModelData.{act_of};
ghost use Rattle.dt_model.specs.Faults.{is_read, is_done, step_operators};

use crate::Act;
use crate::limits::{MOST_DONES, MOST_MODEL_OPERATORS, MOST_NODES, MOST_OPERATORS, MOST_READS};
use dt_lex::Name;
use indexmap::IndexSet;

/// The reads and ends among some nodes, and the operators of all rules and these nodes.
#[derive(Clone, Copy, Debug)]
pub struct Tally {
    pub reads: u32,
    pub dones: u32,
    pub operators: u32,
}

/// What stands before a node.
#[derive(Drop)]
pub struct Prefix {
    pub names: IndexSet<Name>,
    pub tally: Tally,
}

/// The tally with one more node, which has so many operators.
pub fn tallied(before: Tally, act: &Act, own: u32) -> Tally
    requires reads { before.reads ≤ 64 }
    requires dones { before.dones ≤ 16 }
    requires operators { before.operators ≤ 8192 }
    requires own { own ≤ 65 }
    ensures reads { result.reads ≡ before.reads + (if is_read (act_of act.now) then 1 else 0) }
    ensures dones { result.dones ≡ before.dones + (if is_done (act_of act.now) then 1 else 0) }
    ensures operators { result.operators ≡ before.operators + own }
{
    let operators = before.operators + own;
    match act {
        Act::Read { .. } => Tally {
            reads: before.reads + 1,
            dones: before.dones,
            operators,
        },
        Act::Done { .. } => Tally {
            reads: before.reads,
            dones: before.dones + 1,
            operators,
        },
        Act::Let { .. } | Act::If { .. } | Act::Fault { .. } => Tally {
            reads: before.reads,
            dones: before.dones,
            operators,
        },
    }
}

/// Whether a limit is exceeded at the node at a position, counted with what stands before it.
pub fn is_crowded(i: usize, own: u32, tally: Tally) -> bool
    ensures { result ≡ (nat_le 1024 i || nat_lt 64 tally.reads || nat_lt 16 tally.dones || nat_lt 64 own || nat_lt 8192 tally.operators) }
{
    i >= MOST_NODES
        || tally.reads > MOST_READS
        || tally.dones > MOST_DONES
        || own > MOST_OPERATORS
        || tally.operators > MOST_MODEL_OPERATORS
}
