use crate::fork::{Edges, Sides, choose};
use crate::frame::Frame;
use dt_bits::{NoMemory, Op};
use dt_build::Builder;
use std::alloc::Global;

/// How far the nodes of an access were gone through: each variable's term, for each node the term
/// that tells whether the walk comes to it, the next read's word, and the term that tells that the
/// walk doesn't come to the node that is looked at.
#[derive(Drop)]
pub struct Front {
    pub vars: Vec<Option<u32>>,
    pub come: Vec<u32>,
    pub word: u32,
    pub away: u32,
}

impl Front {
    ghost use Rattle.std.specs.Prelude.{◌≡◌, ◌<◌, ◌≤◌, ◌+◌, ◌^◌, IfOk, OnOk, OnErr, length};
    ghost use Rattle.dt_table.specs.Passing.{join, assign, part, noted};
    ghost use Rattle.dt_terms.specs.Problem.{ProblemData};
    ghost use Rattle.dt_table.specs.Table.{first_state};
    ghost use Rattle.dt_unroll.specs.Fronts.{access_data, state_of, Goes, IsWhole};

    /// Before any node: no variable has a term, and the walk comes to node 0.
    ///
    /// # Errors
    ///
    /// `NoMemory` where memory ran out.
    pub fn new(alloc: Global, frame: &Frame, nodes: usize, word: u32) -> Result<Front, NoMemory>
        requires { 0 < nodes }
        ensures state { IfOk result (λ f. (p : ProblemData) →
            state_of p frame.now.zero f ≡ first_state (access_data frame.now) p.terms word) }
        ensures whole { IfOk result (λ f. IsWhole frame.now nodes f) }
    {
        let vars = vec![in alloc; None; frame.places.names.vars.len()]?;
        let mut come = vec![in alloc; frame.zero; nodes]?;
        come[0] = frame.one;
        Ok(Front {
            vars,
            come,
            word,
            away: frame.zero,
        })
    }

    /// Puts a term that tells that the walk doesn't come to the node.
    pub fn note(&mut self, builder: &mut Builder, node: usize) -> Result<(), NoMemory>
        requires { node < length self.old.come.items }
        ensures { OnOk result (Goes (λ s. noted s node) builder.old self.old builder.new self.new) }
    {
        self.away = builder.place(Op::Not, self.come[node], 0, 0)?;
        Ok(())
    }

    /// The walk also comes to the node where this term is 1.
    pub fn join(&mut self, builder: &mut Builder, to: u32, taken: u32) -> Result<(), NoMemory>
        requires { to < length self.old.come.items }
        ensures { OnOk result (Goes (λ s. join s to taken) builder.old self.old builder.new self.new) }
    {
        let before = self.come[to as usize];
        let joined = builder.place(Op::Or, before, taken, 0)?;
        self.come[to as usize] = joined;
        Ok(())
    }

    /// The walk also comes to both sides of a fork, each where its edge is taken.
    pub fn part(
        &mut self,
        builder: &mut Builder,
        sides: Sides,
        edges: Edges,
    ) -> Result<(), NoMemory>
        requires then_to { sides.then_to < length self.old.come.items }
        requires other { sides.other < length self.old.come.items }
        ensures { OnOk result (Goes (λ s. part s sides.then_to edges.by_then sides.other edges.by_other)
            builder.old self.old builder.new self.new) }
    {
        self.join(builder, sides.then_to, edges.by_then)?;
        self.join(builder, sides.other, edges.by_other)
    }

    /// The variable has this value where the edge is taken.
    pub fn assign(
        &mut self,
        builder: &mut Builder,
        var: u32,
        taken: u32,
        value: u32,
    ) -> Result<(), NoMemory>
        requires { var < length self.old.vars.items }
        ensures { OnOk result (Goes (λ s. assign s var taken value) builder.old self.old builder.new self.new) }
    {
        let before = self.vars[var as usize];
        let after = choose(builder, before, taken, value)?;
        self.vars[var as usize] = Some(after);
        Ok(())
    }

    /// The word of a read, after which the next read has the next word.
    pub fn next_word(&mut self) -> Result<u32, NoMemory>
        ensures word { IfOk result (λ w. w ≡ self.old.word) }
        ensures too_large { OnErr result (2 ^ 32 ≤ self.old.word + 1) }
        ensures next { OnOk result (self.new ≡ record self.old { word = self.old.word + 1 }) }
    {
        let word = self.word;
        self.word = word.checked_add(1).ok_or(NoMemory)?;
        Ok(word)
    }
}
