ghost use Rattle.dt_modeltext.specs.Spelling.{ReadsOnlySpelled, ReadsAllSpelled, IsShallowSpelled};

/// An expression is read exactly where tokens spell it, and in a line that isn't too deep none is
/// left out for its depth; this call does nothing.
pub fn is_grammar()
    ensures only { ReadsOnlySpelled }
    ensures all { ReadsAllSpelled }
    ensures shallow { IsShallowSpelled }
{}
