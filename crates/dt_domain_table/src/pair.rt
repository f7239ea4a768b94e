//! Pairs in a line: width, mask, value, lo and hi; an empty one has a range from 1 to 0.
ghost use Rattle.std.specs.Prelude.{◌≡◌, IfSome};
ghost use Rattle.dt_pair.specs.Pair.{IsPair};

use crate::asked::Written;
use crate::known::is_known;
use crate::numbers::small;
use crate::range::range_at;
use dt_bits::Width;
use dt_domain::Domain;
use dt_known::Known;
use dt_pair::Pair;
use std::io;

/// The pair at a place, in normal form.
pub fn pair_at(given: &[u128], at: usize) -> Option<Pair>
    ensures { IfSome result IsPair }
{
    if at > 100 {
        return None;
    }
    let width = Width(small(given, at)?);
    let range = range_at(given, width, at + 3)?;
    let known = Known {
        width,
        mask: *given.get(at + 1)?,
        value: *given.get(at + 2)?,
        empty: range.is_empty(),
    };
    if is_known(&known) {
        Some(Pair::normal(&known, &range))
    } else {
        None
    }
}

impl Written for Pair {
    fn read(numbers: &[u128], place: usize) -> Option<Pair> {
        pair_at(numbers, 3 + 5 * place)
    }

    fn print(&self, rt: &HostRuntime) -> io::Result<()> {
        let width = self.known.width.0;
        let mask = self.known.mask;
        let value = self.known.value;
        let lo = self.range.lo;
        let hi = self.range.hi;
        println!(rt; "{width} {mask} {value} {lo} {hi}")
    }
}
