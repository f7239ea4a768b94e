ghost use Rattle.dt_log.specs.Exact.{TreesAreRead};

/// The law of trees, as a contract: lines are read as a tree exactly where a tree has these items,
/// and no other tree has them; and the first wrong line is the first where no tree can go on. The
/// call does nothing.
pub fn trees_are_read()
    ensures { TreesAreRead }
{}
