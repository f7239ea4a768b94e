ghost use Rattle.std.specs.Prelude.{◌≡◌, ◌≤◌, IfOk, map, length};
ghost use Rattle.dt_model.specs.ModelData.{act_of};
ghost use Rattle.dt_model.specs.Accepted.{accepted_data};
ghost use Rattle.dt_model.specs.Faults.{names_of, is_read};
ghost use Rattle.dt_model.specs.NameTable.{Finds};
ghost use Rattle.dt_request.specs.Lists.{is_fork};
ghost use Rattle.dt_request.specs.Entry.{node_names, is_step};

use dt_bits::NoMemory;
use dt_lex::Name;
use dt_model::{Accepted, Act, NameTable, Named, Node};
use std::alloc::Global;

/// A table of these names.
fn named_table(alloc: Global, names: &[Named]) -> Result<NameTable, NoMemory>
    requires { length names.now ≤ 32 }
    ensures { IfOk result (λ table. Finds table (map (λ n. n.name) names.now)) }
{
    let mut table = NameTable::new(alloc);
    let mut at = 0;
    for named in names {
        table.add(named.name, at)?;
        at += 1;
    }
    Ok(table)
}

/// A table of the names of these nodes.
fn node_table(alloc: Global, nodes: &[Node]) -> Result<NameTable, NoMemory>
    requires { length nodes.now ≤ 1024 }
    ensures { IfOk result (λ table. Finds table (map (λ n. n.name) nodes.now)) }
{
    let mut table = NameTable::new(alloc);
    let mut at = 0;
    for node in nodes {
        table.add(node.name, at)?;
        at += 1;
    }
    Ok(table)
}

/// A model whose names are found by their hash.
#[derive(Drop)]
pub struct Known<'a> {
    model: &'a Accepted,
    regs: NameTable,
    inputs: NameTable,
    nodes: NameTable,
    ghost regs_found: { Finds regs (names_of (accepted_data model.now).regs) },
    ghost inputs_found: { Finds inputs (names_of (accepted_data model.now).inputs) },
    ghost nodes_found: { Finds nodes (node_names (accepted_data model.now)) },
}

/// Whether a node is a read.
pub fn is_read(act: &Act) -> bool
    ensures { result ≡ is_read (act_of act.now) }
{
    matches!(act, Act::Read { .. })
}

/// Whether a node has the sides then and else.
fn is_fork(act: &Act) -> bool
    ensures { result ≡ is_fork (act_of act.now) }
{
    matches!(act, Act::Read { .. } | Act::If { .. })
}

/// Whether the node at this position is a read.
#[tactic(auto, using(crate::proofs::Steps::step_some, crate::proofs::Steps::step_none))]
pub fn is_read_at(model: &Accepted, at: u32) -> bool
    ensures { result ≡ is_step is_read (accepted_data model.now) at }
{
    match model.model().nodes.as_slice().get(at as usize) {
        None => false,
        Some(node) => is_read(&node.act),
    }
}

/// Whether the node at this position is an if or a read.
#[tactic(auto, using(crate::proofs::Steps::step_some, crate::proofs::Steps::step_none))]
fn is_fork_at(model: &Accepted, at: u32) -> bool
    ensures { result ≡ is_step is_fork (accepted_data model.now) at }
{
    match model.model().nodes.as_slice().get(at as usize) {
        None => false,
        Some(node) => is_fork(&node.act),
    }
}

impl<'a> Known<'a> {
    ghost use Rattle.std.specs.Prelude.{◌≡◌, IfOk};
    ghost use Rattle.dt_model.specs.Accepted.{accepted_data};
    ghost use Rattle.dt_model.specs.Faults.{names_of, is_read};
    ghost use Rattle.dt_model.specs.Positions.{position_of};
    ghost use Rattle.dt_request.specs.Lists.{is_fork};
    ghost use Rattle.dt_request.specs.Entry.{node_names, step_where};

    /// The model with tables of its names.
    pub fn new(alloc: Global, model: &'a Accepted) -> Result<Known<'a>, NoMemory>
        ensures { IfOk result (λ known. known.model.now ≡ model.now) }
    {
        let parts = model.model();
        let regs = named_table(alloc, parts.regs.as_slice())?;
        let inputs = named_table(alloc, parts.inputs.as_slice())?;
        let nodes = node_table(alloc, parts.nodes.as_slice())?;
        Ok(Known {
            model,
            regs,
            inputs,
            nodes,
        })
    }

    /// The model itself.
    pub fn model(&self) -> &'a Accepted
        ensures { result.now ≡ self.now.model.now }
    {
        self.model
    }

    /// The position of a register.
    pub fn reg(&self, name: &Name) -> Option<u32>
        ensures { result ≡ position_of (names_of (accepted_data self.now.model.now).regs) name.now }
    {
        self.regs.position(name)
    }

    /// The position of an input.
    pub fn input(&self, name: &Name) -> Option<u32>
        ensures { result ≡ position_of (names_of (accepted_data self.now.model.now).inputs) name.now }
    {
        self.inputs.position(name)
    }

    /// The position of a node.
    pub fn node(&self, name: &Name) -> Option<u32>
        ensures { result ≡ position_of (node_names (accepted_data self.now.model.now)) name.now }
    {
        self.nodes.position(name)
    }

    /// The position of a node that is a read.
    pub fn read_node(&self, name: &Name) -> Option<u32>
        ensures { result ≡ step_where is_read (accepted_data self.now.model.now) name.now }
    {
        let at = self.node(name)?;
        is_read_at(self.model, at).then_some(at)
    }

    /// The position of a node that is an if or a read.
    pub fn fork(&self, name: &Name) -> Option<u32>
        ensures { result ≡ step_where is_fork (accepted_data self.now.model.now) name.now }
    {
        let at = self.node(name)?;
        is_fork_at(self.model, at).then_some(at)
    }
}
