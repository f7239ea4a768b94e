ghost use Rattle.dt_box.specs.Assignments.{RootsHold, StepsKeep, BitsKeep};
ghost use Rattle.dt_box.specs.Neighbours.{StepsAreLocal};

use dt_domain::Domain;

/// Root cells hold every assignment that solves the problem, and steps and fitting bits keep what
/// cells hold, whatever the domain; this call does nothing.
pub fn keeps_assignments<D: Domain>()
    ensures roots { RootsHold D.ops }
    ensures steps { StepsKeep D.ops }
    ensures bits { BitsKeep D.ops }
{}

/// What a step does depends on the cells of its node and that node's operands alone, whatever the
/// domain; this call does nothing.
pub fn steps_are_local<D: Domain>()
    ensures { StepsAreLocal D.ops }
{}
