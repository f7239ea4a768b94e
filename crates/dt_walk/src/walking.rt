ghost use Rattle.std.specs.Prelude.{◌≡◌, ℕ, ◌+◌, ◌*◌, ◌^◌, ◌<◌, Some, slice_index, length};
ghost use Rattle.dt_model.specs.Flow.{steps_of};
ghost use Rattle.dt_walk.specs.Meaning.{unbound};
ghost use Rattle.dt_walk.specs.Walks.{walk_from};
ghost use Rattle.dt_walk.specs.Walkers.{run_data};
ghost use Rattle.dt_walk.specs.Sound.{AreValues, AreSound};
ghost use Rattle.dt_walk.specs.Env.{env_data};
ghost use Rattle.dt_walk.specs.Room.{HasRoom, IsFilled};

use crate::Run;
use crate::step::{Next, step};
use crate::value::Env;
use dt_bits::TableMemory;
use dt_model::Node;

/// The walk from node 0, into an empty run with room for it.
pub fn walk_over(env: &Env, memory: &TableMemory, nodes: &[Node], vars: &mut [u128], run: &mut Run)
    requires sound { AreSound (env_data env.now).scope (8 * memory.now.bytes) (steps_of nodes.now) }
    requires some { 0 < length nodes.now }
    requires few { length nodes.now < 2 ^ 32 }
    requires regs { AreValues env.now.names.regs.now env.now.regs.now }
    requires inputs { AreValues env.now.names.inputs.now env.now.inputs.now }
    requires vars { AreValues env.now.names.vars.now vars.old }
    requires clear { slice_index vars.old ≡ unbound }
    requires empty { IsFilled 0 run.old }
    requires room { HasRoom (length nodes.now) run.old }
    ensures run { run_data run.new ≡
        walk_from (env_data env.now) memory.now (steps_of nodes.now) 0 0 unbound }
    ensures vars { AreValues env.now.names.vars.now vars.new }
    ensures room { HasRoom (length nodes.now) run.new }
{
    let mut at = 0;
    loop {
        match step(
            env,
            memory,
            vars,
            run,
            &nodes[at as usize].act,
            at,
            nodes.len(),
        ) {
            Next::Go(to) => at = to,
            Next::End(end) => {
                run.end = end;
                return;
            }
        }
    }
}
