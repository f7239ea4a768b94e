ghost use Rattle.std.specs.Prelude.{◌≡◌, IfSome, MatchOption};
ghost use Rattle.dt_box.specs.Changes.{IsChange, knows_more, has_news};

use crate::Changed;
use dt_domain::Domain;

// Whether a bit is known now that wasn't before.
fn knows_more<D: Domain>(old: &D, new: &D) -> bool
    requires old_is { D.ops.IsDomain old.now }
    requires new_is { D.ops.IsDomain new.now }
    ensures { result ≡ knows_more D.ops old.now new.now }
{
    new.known_mask() & !old.known_mask() != 0
}

// What became of a domain that is as it was.
pub(crate) fn unchanged<D: Domain>(domain: &D) -> Changed
    requires { D.ops.IsDomain domain.now }
    ensures { IsChange D.ops domain.now domain.now result }
{
    if domain.is_empty() {
        Changed::Empty
    } else {
        Changed::No
    }
}

// What became of a domain.
pub(crate) fn change_of<D: Domain>(old: &D, new: &D) -> Changed
    requires old_is { D.ops.IsDomain old.now }
    requires new_is { D.ops.IsDomain new.now }
    ensures { IsChange D.ops old.now new.now result }
{
    if new.is_empty() {
        return Changed::Empty;
    }
    if *new == *old {
        return Changed::No;
    }
    if knows_more(old, new) {
        Changed::BitKnown
    } else {
        Changed::Narrowed
    }
}

// Puts into a cell what narrows it, if anything does, and says what became of it. Else the cell isn't
// written.
#[inline(always)]
pub(crate) fn put<D: Domain>(narrowed: Option<D>, cell: &mut D) -> Changed
    requires cell { D.ops.IsDomain cell.old }
    requires narrowed { IfSome narrowed D.ops.IsDomain }
    ensures cell { MatchOption narrowed (cell.new ≡ cell.old) (λ new. cell.new ≡ new) }
    ensures change { IsChange D.ops cell.old cell.new result }
{
    match narrowed {
        None => unchanged(cell),
        Some(new) => {
            let changed = change_of(cell, &new);
            *cell = new;
            changed
        }
    }
}

// Whether a cell would become empty, or know a further bit, where this narrows it, if anything does.
#[inline(always)]
pub(crate) fn has_news<D: Domain>(narrowed: Option<D>, cell: &D) -> bool
    requires cell { D.ops.IsDomain cell.now }
    requires narrowed { IfSome narrowed D.ops.IsDomain }
    ensures { MatchOption narrowed (result ≡ has_news D.ops cell.now cell.now) (λ new. result ≡ has_news D.ops cell.now new) }
{
    match narrowed {
        None => cell.is_empty(),
        Some(new) => new.is_empty() || knows_more(cell, &new),
    }
}
