ghost use Rattle.std.specs.Prelude.{◌≡◌, if◌then◌else◌, ℕ, ◌+◌, ◌*◌, ◌<◌, ◌^◌, Some, slice_index};
ghost use Rattle.dt_model.specs.ModelData.{act_of};
ghost use Rattle.dt_model.specs.Widths.{width_at};
ghost use Rattle.dt_walk.specs.Meaning.{Vars, bound};
ghost use Rattle.dt_walk.specs.Walks.{RunData, acted, after};
ghost use Rattle.dt_walk.specs.Walkers.{run_data};
ghost use Rattle.dt_walk.specs.Room.{HasRoom, IsFilled};
ghost use Rattle.dt_walk.specs.Sound.{AreValues, IsSound};
ghost use Rattle.dt_walk.specs.Env.{env_data};
ghost use Rattle.dt_walk.specs.Steps.{IsNext, LeadsOn};

use crate::value::{Env, value};
use crate::{End, ReadMade, Run, SideTaken};
use dt_bits::TableMemory;
use dt_model::{Act, Named};

/// What comes after a node.
#[derive(Clone, Copy)]
pub enum Next {
    Go(u32),
    End(End),
}

// Binds a variable.
fn bind(names: &[Named], vars: &mut [u128], x: u32, bits: u128)
    requires values { AreValues names.now vars.old }
    requires there { (w : ℕ) × (width_at names.now x ≡ Some w) × (bits < 2 ^ w) }
    ensures values { AreValues names.now vars.new }
    ensures bound { slice_index vars.new ≡ bound (slice_index vars.old) x bits }
{
    vars[x as usize] = bits;
}

fn branch(by_then: bool, then_to: u32, other: u32) -> u32
    ensures { result ≡ (if by_then then then_to else other) }
{
    if by_then { then_to } else { other }
}

/// One node's step, which records the node, and its side and its read where it has one.
pub fn step(
    env: &Env,
    memory: &TableMemory,
    vars: &mut [u128],
    run: &mut Run,
    act: &Act,
    at: u32,
    count: usize,
) -> Next
    requires sound { IsSound (env_data env.now).scope (8 * memory.now.bytes) count at (act_of act.now) }
    requires regs { AreValues env.now.names.regs.now env.now.regs.now }
    requires inputs { AreValues env.now.names.inputs.now env.now.inputs.now }
    requires vars { AreValues env.now.names.vars.now vars.old }
    requires within { at < count }
    requires room { HasRoom count run.old }
    requires filled { IsFilled at run.old }
    ensures vars { AreValues env.now.names.vars.now vars.new }
    ensures room { HasRoom count run.new }
    ensures filled { IsFilled (at + 1) run.new }
    ensures next { LeadsOn count at result }
    ensures value { (go : ℕ → Vars → RunData) →
        IsNext go (slice_index vars.new) (run_data run.new) result
        (after (run_data run.old)
        (acted (env_data env.now) memory.now at (act_of act.now) go (slice_index vars.old))) }
{
    run.path.push_reserved(at);
    match act {
        Act::Let {
            var,
            value: e,
            next,
        } => {
            let v = value(e, env, vars);
            bind(env.names.vars, vars, *var, v.bits);
            Next::Go(*next)
        }
        Act::Read {
            var,
            cell,
            then_to,
            other,
            ..
        } => {
            let v = value(cell, env, vars);
            match memory.word_at(v.bits) {
                None => {
                    run.sides.push_reserved(SideTaken {
                        node: at,
                        by_then: false,
                    });
                    Next::Go(*other)
                }
                Some(word) => {
                    bind(env.names.vars, vars, *var, word);
                    run.sides.push_reserved(SideTaken {
                        node: at,
                        by_then: true,
                    });
                    run.reads.push_reserved(ReadMade {
                        node: at,
                        cell: v.bits,
                        word,
                    });
                    Next::Go(*then_to)
                }
            }
        }
        Act::If {
            test,
            then_to,
            other,
        } => {
            let v = value(test, env, vars);
            let by_then = v.bits == 1;
            run.sides.push_reserved(SideTaken { node: at, by_then });
            Next::Go(branch(by_then, *then_to, *other))
        }
        Act::Fault { code } => Next::End(End::Fault {
            node: at,
            code: *code,
        }),
        Act::Done { pa, page } => {
            let v = value(pa, env, vars);
            Next::End(End::Done {
                node: at,
                pa: v.bits,
                page: *page,
            })
        }
    }
}
