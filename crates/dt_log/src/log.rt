ghost use Rattle.dt_log.specs.Shapes.{is_tree};
ghost use Rattle.std.specs.Prelude.{◌≡◌, true};

use crate::line::Claim;
use crate::lines::Lines;

/// A log: what it claims, and its items, which are one tree.
#[derive(Debug, Drop)]
pub struct Log {
    pub claim: Claim,
    pub lines: Lines,
    ghost tree: { is_tree lines ≡ true },
}
