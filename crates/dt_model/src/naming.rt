ghost use Rattle.std.specs.Prelude.{◌≡◌, ◌+◌, ◌<◌, ◌≤◌, true, not, List, [], ◌∷◌, ◌++◌, IfOk, IfNone};
ghost use Rattle.indexmap.specs.IndexSet.{contains};
ghost use Rattle.dt_lex.specs.declared.name.Name.{Name};
ghost use Rattle.dt_model.specs.Faults.{is_named, names_of, NameBreaks};
ghost use Rattle.dt_model.specs.Refusals.{IsSmallest, IsFirst, NamesBreak};

use crate::{ModelRefusal, Named};
use dt_lex::Name;
use indexmap::IndexSet;
use std::alloc::AllocError;

/// Adds a name at the end, and says whether it is new.
pub fn declare(names: &mut IndexSet<Name>, name: Name) -> Result<bool, AllocError>
    ensures new { IfOk result (λ new. new ≡ not (is_named names.old.keys name)) }
    ensures keys { IfOk result (λ new. new ≡ true → names.new.keys ≡ names.old.keys ++ name ∷ []) }
{
    Ok(names.insert(name)?)
}

fn name_fault(limit: u32, i: usize, new: bool, width: u32) -> Option<ModelRefusal>
    ensures { (earlier : List Name) (name : Name) → new ≡ not (is_named earlier name) → IsSmallest (NameBreaks limit i earlier (record { name = name; width = width })) result }
{
    if !new {
        Some(ModelRefusal::NameTwice)
    } else if width < 1 || width > 128 {
        Some(ModelRefusal::WidthRange)
    } else if i >= limit as usize {
        Some(ModelRefusal::TooMany)
    } else {
        None
    }
}

/// The first of these names that is at fault. Where none is, all are declared now.
pub fn names_fault(
    declared: &mut IndexSet<Name>,
    limit: u32,
    names: &[Named],
) -> Result<Option<(u32, ModelRefusal)>, AllocError>
    ensures fault { IfOk result (IsFirst (NamesBreak limit declared.old.keys names.now)) }
    ensures declared { IfOk result (λ f. IfNone f (declared.new.keys ≡ declared.old.keys ++ names_of names.now)) }
{
    for (i, named) in names.iter().enumerate() {
        let new = declare(declared, named.name)?;
        if let Some(refusal) = name_fault(limit, i, new, named.width) {
            return Ok(Some((i as u32, refusal)));
        }
    }
    Ok(None)
}
