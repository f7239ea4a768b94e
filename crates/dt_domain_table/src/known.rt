//! Known bits in a line: width, mask, value, and 1 where empty.
ghost use Rattle.std.specs.Prelude.{◌≡◌, true, IfSome};
ghost use Rattle.dt_known.specs.Known.{IsKnown};

use crate::asked::Written;
use crate::numbers::small;
use dt_bits::Width;
use dt_known::Known;
use std::io;

/// Whether these are the data of a domain.
pub fn is_known(k: &Known) -> bool
    ensures { result ≡ true → IsKnown k.now }
{
    let width = k.width.0;
    if width < 1 || width > 128 {
        return false;
    }
    let fits = width == 128 || k.mask < 1 << width;
    fits && k.value & k.mask == k.value && (!k.empty || k.mask == 0 && k.value == 0)
}

/// The known bits at a place.
fn known_at(given: &[u128], at: usize) -> Option<Known>
    ensures { IfSome result IsKnown }
{
    if at > 100 {
        return None;
    }
    let known = Known {
        width: Width(small(given, at)?),
        mask: *given.get(at + 1)?,
        value: *given.get(at + 2)?,
        empty: *given.get(at + 3)? == 1,
    };
    if is_known(&known) { Some(known) } else { None }
}

impl Written for Known {
    fn read(numbers: &[u128], place: usize) -> Option<Known> {
        known_at(numbers, 3 + 4 * place)
    }

    fn print(&self, rt: &HostRuntime) -> io::Result<()> {
        let width = self.width.0;
        let mask = self.mask;
        let value = self.value;
        let empty = self.empty as u32;
        println!(rt; "{width} {mask} {value} {empty}")
    }
}
