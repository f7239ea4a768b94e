ghost use Rattle.std.specs.Prelude.{◌≡◌, ◌*◌, ◌≤◌, IfOk, slice_index, length, vec_capacity};
ghost use Rattle.std.specs.Borrow.{sem};
ghost use Rattle.dt_model.specs.Accepted.{accepted_data};
ghost use Rattle.dt_model.specs.Values.{FitNames};
ghost use Rattle.dt_walk.specs.Meaning.{unbound};
ghost use Rattle.dt_walk.specs.Walks.{walk_of};
ghost use Rattle.dt_walk.specs.Room.{HasRoom};

use crate::value::Env;
use crate::walking::walk_over;
use crate::{End, Run};
use dt_bits::{NoMemory, TableMemory};
use dt_model::{Accepted, Names};
use std::alloc::Global;

/// Walks a model's graph from node 0, in memory that it takes once.
#[derive(Drop)]
pub struct Walker<'a> {
    model: &'a Accepted,
    vars: Vec<u128>,
    run: Run,
    ghost vars_len: { length vars.items ≡ length (accepted_data model.now).vars },
    ghost room: { HasRoom (length (accepted_data model.now).nodes) run },
}

// Sets each number to 0.
fn unbind(vars: &mut [u128])
    ensures { slice_index vars.new ≡ unbound }
{
    for x in vars.iter_mut() {
        *x = 0;
    }
}

impl<'a> Walker<'a> {
    ghost use Rattle.dt_walk.specs.Walkers.{walker_data, run_data};
    ghost use Rattle.dt_walk.specs.Loan.{KeepsModel};

    /// A walker of the model. It takes all its memory here, for each variable and three times for
    /// each node.
    ///
    /// # Errors
    ///
    /// `NoMemory` where memory ran out.
    pub fn new(alloc: Global, model: &'a Accepted) -> Result<Walker<'a>, NoMemory>
        ensures { IfOk result (λ w. walker_data w ≡ accepted_data model.now) }
    {
        let m = model.model();
        let vars = vec![in alloc; 0u128; m.vars.len()]?;
        let path = Vec::with_capacity(alloc, m.nodes.len())?;
        let sides = Vec::with_capacity(alloc, m.nodes.len())?;
        let reads = Vec::with_capacity(alloc, m.nodes.len())?;
        let end = End::Fault { node: 0, code: 0 };
        Ok(Walker {
            model,
            vars,
            run: Run {
                path,
                sides,
                reads,
                end,
            },
        })
    }

    // Makes the run, in place of the last one.
    fn fill(&mut self, regs: &[u128], inputs: &[u128], memory: &TableMemory)
        requires regs { FitNames (walker_data self.old).regs regs.now }
        requires inputs { FitNames (walker_data self.old).inputs inputs.now }
        requires memory { (walker_data self.old).word ≡ 8 * memory.now.bytes }
        ensures run { run_data self.new.run ≡ walk_of (walker_data self.old) regs.now inputs.now memory.now }
        ensures model { self.new.model ≡ self.old.model }
    {
        let m = self.model.model();
        let names = Names {
            regs: m.regs.as_slice(),
            inputs: m.inputs.as_slice(),
            vars: m.vars.as_slice(),
        };
        let env = Env {
            names,
            regs,
            inputs,
        };
        self.run.path.clear();
        self.run.sides.clear();
        self.run.reads.clear();
        let vars = self.vars.as_mut_slice();
        unbind(vars);
        walk_over(&env, memory, m.nodes.as_slice(), vars, &mut self.run);
    }

    /// The run under these registers, inputs and table memory, which stands until the next one.
    /// There is a value for each register and each input of the model, in order and of its width,
    /// and the memory's words have the model's width. A `read` of a cell where the memory has a word
    /// binds its variable to that word, is listed, and goes on at `then`; any other binds nothing,
    /// isn't listed, and goes on at `other`. Each `if` and `read` of the path is listed with the side
    /// by which it was left. It takes no memory.
    pub fn walk(&mut self, regs: &[u128], inputs: &[u128], memory: &TableMemory) -> &Run
        requires regs { FitNames (walker_data self.old).regs regs.now }
        requires inputs { FitNames (walker_data self.old).inputs inputs.now }
        requires memory { (walker_data self.old).word ≡ 8 * memory.now.bytes }
        ensures run { run_data result.now ≡ walk_of (walker_data self.old) regs.now inputs.now memory.now }
        ensures* lends { sem 𝓛 (KeepsModel self.entry) }
    {
        self.fill(regs, inputs, memory);
        &self.run
    }
}
