ghost use Rattle.std.specs.Prelude.{◌≡◌, IfOk, OnOk};
ghost use Rattle.dt_table.specs.Passing.{chosen, fork};
ghost use Rattle.dt_build.specs.Building.{placed_in};

use dt_bits::{NoMemory, Op};
use dt_build::Builder;

/// The nodes that a fork leads to.
#[derive(Clone, Copy)]
pub struct Sides {
    pub then_to: u32,
    pub other: u32,
}

/// The terms of a fork's edges: the walk goes to `then_to`, and to `other`.
#[derive(Clone, Copy)]
pub struct Edges {
    pub by_then: u32,
    pub by_other: u32,
}

/// The edges by which the walk leaves a node that it comes to where `come` is 1: the one where its
/// test is 1, and the one where it isn't.
pub fn fork(builder: &mut Builder, come: u32, test: u32) -> Result<Edges, NoMemory>
    ensures by_then { IfOk result (λ f. f.by_then ≡ (fork builder.old.terms come test).by_then) }
    ensures by_other { IfOk result (λ f. f.by_other ≡ (fork builder.old.terms come test).by_other) }
    ensures terms { OnOk result (builder.new.terms ≡ (fork builder.old.terms come test).terms) }
    ensures required { OnOk result (builder.new.required ≡ builder.old.required) }
{
    let by_then = builder.place(Op::And, come, test, 0)?;
    let not = builder.place(Op::Not, test, 0, 0)?;
    let by_other = builder.place(Op::And, come, not, 0)?;
    Ok(Edges { by_then, by_other })
}

/// A variable's term after one that has it where an edge is taken.
pub fn choose(
    builder: &mut Builder,
    before: Option<u32>,
    taken: u32,
    value: u32,
) -> Result<u32, NoMemory>
    ensures at { IfOk result (λ t. t ≡ (chosen builder.old.terms before taken value).at) }
    ensures placed { OnOk result (builder.new ≡ placed_in builder.old (chosen builder.old.terms before taken value)) }
{
    match before {
        None => Ok(value),
        Some(old) => builder.place(Op::Ite, taken, value, old),
    }
}
