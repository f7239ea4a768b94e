use dt_bits::NoMemory;
use dt_terms::Term;
use indexmap::IndexSet;
use std::alloc::Global;
use std::marker::Model;

/// Nodes in the order in which they were entered, each once.
#[derive(Drop)]
pub(crate) struct NodeTable {
    nodes: IndexSet<Term>,
}

impl Model for NodeTable {
    ghost use Rattle.std.specs.Prelude.{List};
    ghost use Rattle.dt_terms.specs.declared.term.Term.{Term};

    ghost Value = { List Term };

    ghost view = { λ t. t.nodes.keys };
}

impl NodeTable {
    ghost use Rattle.std.specs.Prelude.{◌≡◌, [], ◌∷◌, ◌++◌, ◌<◌, ◌^◌, IfOk, OnOk, OnErr, length, take, ◌-◌, ◌==◌, not};
    ghost use Rattle.dt_forms.specs.Placing.{put};
    ghost use Rattle.dt_build.specs.Building.{is_new};

    /// The table of no nodes.
    pub(crate) fn new(alloc: Global) -> NodeTable
        ensures { result ≡ [] }
    {
        NodeTable {
            nodes: IndexSet::new(alloc),
        }
    }

    /// The place of a node, and whether it is new: then it stands behind the others.
    pub(crate) fn enter(&mut self, node: Term) -> Result<(usize, bool), NoMemory>
        ensures entered { OnOk result (self.new ≡ (put self.old node).terms) }
        ensures place { IfOk result (λ r. r.0 ≡ (put self.old node).at) }
        ensures added { IfOk result (λ r. r.1 ≡ is_new self.old node) }
        ensures within { IfOk result (λ r. r.0 < length self.new) }
        ensures kept { OnErr result (self.new ≡ self.old) }
    {
        let entered = self.nodes.insert_full(node)?;
        Ok(entered)
    }

    /// Without the last node.
    pub(crate) fn leave(&mut self)
        ensures { self.new ≡ take (length self.old - 1) self.old }
    {
        let _last = self.nodes.pop();
    }

    /// How many nodes there are.
    pub(crate) fn len(&self) -> usize
        ensures count { result ≡ length self.now }
        ensures small { result < 2 ^ 63 }
    {
        self.nodes.len()
    }
}
