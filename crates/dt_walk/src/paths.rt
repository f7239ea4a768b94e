ghost use Rattle.dt_walk.specs.Edges.{WalksGoByPaths};

/// A law of walks; the call does nothing. Each walk of an accepted model goes by a path of the model,
/// as the check of the model speaks of paths: its edges lead from node 0 to later nodes that exist,
/// it ends as the act of its last node says, it uses no variable that no earlier edge assigned, and
/// it lists reads at read nodes alone.
#[tactic(auto, using(crate::proofs::Edges::walks_go_by_paths))]
pub fn goes_by_paths()
    ensures { WalksGoByPaths }
{}
