use crate::line::{Claim, Line};
use crate::lines::Lines;
use crate::log::Log;
use crate::shaping::first_wrong;
use dt_bits::NoMemory;
use std::alloc::Global;

/// A log that is being written, without the rule that its items are a tree.
#[derive(Debug, Drop)]
pub struct Draft {
    pub lines: Lines,
}

impl Draft {
    ghost use Rattle.std.specs.Prelude.{◌≡◌, [], ◌++◌, ◌∷◌, OnOk, OnErr, List, false, MatchOption};
    ghost use Rattle.dt_log.specs.Shapes.{is_tree};
    ghost use Rattle.dt_log.specs.declared.line.Line.{Line};

    /// A draft without lines. It takes no memory.
    pub fn new(alloc: Global) -> Draft
        ensures { result.lines ≡ [] }
    {
        Draft {
            lines: Lines::new(alloc),
        }
    }

    /// Appends a line; without memory for it, the lines stay as they were.
    pub fn push(&mut self, line: Line) -> Result<(), NoMemory>
        ensures ok { OnOk result (self.new.lines ≡ self.old.lines ++ line ∷ []) }
        ensures err { OnErr result (self.new.lines ≡ self.old.lines) }
    {
        self.lines.push(line)
    }

    /// Takes the last line away, where there is one.
    pub fn pop(&mut self)
        ensures some { (lines : List Line) → (line : Line) → self.old.lines ≡ lines ++ line ∷ [] → self.new.lines ≡ lines }
        ensures none { self.old.lines ≡ [] → self.new.lines ≡ [] }
    {
        self.lines.pop();
    }

    /// The log of these lines, with this claim; None exactly where the lines aren't a tree. It goes
    /// over the lines once, with counters in place of a stack, and takes no memory.
    pub fn finish(self, claim: Claim) -> Option<Log>
        ensures { MatchOption result (is_tree self.lines ≡ false) (λ log. (log.claim ≡ claim) × (log.lines ≡ self.lines)) }
    {
        let Draft { lines } = self;
        if first_wrong(&lines).is_some() {
            return None;
        }
        Some(Log { claim, lines })
    }
}
