//! Listed numbers in a line: width, how many, and eight numbers of which only so many count. More than
//! eight stands for all numbers of the width.
ghost use Rattle.std.specs.Prelude.{◌≡◌, IfSome};
ghost use Rattle.dt_sets.specs.Sets.{IsSets};

use crate::asked::Written;
use crate::numbers::small;
use dt_bits::Width;
use dt_domain::Domain;
use dt_sets::Sets;
use std::io;

/// The Sets of this width at a place.
pub fn sets_at(given: &[u128], width: Width, at: usize) -> Option<Sets>
    ensures is { IfSome result IsSets }
    ensures width { IfSome result (λ s. s.width ≡ width) }
{
    if at > 100 || width.0 < 1 || width.0 > 128 {
        return None;
    }
    let count = small(given, at)?;
    if count > 8 {
        return Some(Sets::full(width));
    }
    let numbers = given.get(at + 1..at + 1 + count as usize)?;
    Sets::of_numbers(width, numbers)
}

impl Written for Sets {
    fn read(numbers: &[u128], place: usize) -> Option<Sets> {
        let at = 3 + 10 * place;
        sets_at(numbers, Width(small(numbers, at)?), at + 1)
    }

    fn print(&self, rt: &HostRuntime) -> io::Result<()> {
        let width = self.width.0;
        let count = if self.many { 9 } else { self.count };
        let [a, b, c, d, e, f, g, h] = self.numbers;
        println!(rt; "{width} {count} {a} {b} {c} {d} {e} {f} {g} {h}")
    }
}
