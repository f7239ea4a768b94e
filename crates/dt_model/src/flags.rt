ghost use Rattle.std.specs.Prelude.{IsTrue};
ghost use Rattle.dt_model.specs.Refusals.{IsSmallest, flag};

use crate::ModelRefusal;

/// Which refusals apply at a place.
#[derive(Clone, Copy, Debug)]
pub struct Flags {
    pub name_twice: bool,
    pub unknown_name: bool,
    pub width_mismatch: bool,
    pub width_range: bool,
    pub back_edge: bool,
    pub unassigned: bool,
    pub assigned_twice: bool,
    pub no_node: bool,
    pub too_many: bool,
    pub too_deep: bool,
}

/// The smallest refusal that applies.
pub fn smallest(f: Flags) -> Option<ModelRefusal>
    ensures { IsSmallest (λ r. IsTrue (flag f r)) result }
{
    if f.name_twice {
        Some(ModelRefusal::NameTwice)
    } else if f.unknown_name {
        Some(ModelRefusal::UnknownName)
    } else if f.width_mismatch {
        Some(ModelRefusal::WidthMismatch)
    } else if f.width_range {
        Some(ModelRefusal::WidthRange)
    } else if f.back_edge {
        Some(ModelRefusal::BackEdge)
    } else if f.unassigned {
        Some(ModelRefusal::Unassigned)
    } else if f.assigned_twice {
        Some(ModelRefusal::AssignedTwice)
    } else if f.no_node {
        Some(ModelRefusal::NoNode)
    } else if f.too_many {
        Some(ModelRefusal::TooMany)
    } else if f.too_deep {
        Some(ModelRefusal::TooDeep)
    } else {
        None
    }
}
