//! Triples in a line: a pair, and how many numbers are listed, and eight numbers, as Sets are written.
ghost use Rattle.std.specs.Prelude.{◌≡◌, IfSome};
ghost use Rattle.dt_sets.specs.Triple.{IsTriple};

use crate::asked::Written;
use crate::pair::pair_at;
use crate::sets::sets_at;
use dt_pair::Pair;
use dt_sets::Triple;
use std::io;

/// The Triple at a place, in normal form.
fn triple_at(given: &[u128], at: usize) -> Option<Triple>
    ensures { IfSome result IsTriple }
{
    if at > 100 {
        return None;
    }
    let Pair { known, range } = pair_at(given, at)?;
    let sets = sets_at(given, known.width, at + 5)?;
    Some(Triple::normal(&known, &range, &sets))
}

impl Written for Triple {
    fn read(numbers: &[u128], place: usize) -> Option<Triple> {
        triple_at(numbers, 3 + 14 * place)
    }

    fn print(&self, rt: &HostRuntime) -> io::Result<()> {
        let width = self.known.width.0;
        let mask = self.known.mask;
        let value = self.known.value;
        let lo = self.range.lo;
        let hi = self.range.hi;
        let count = if self.sets.many { 9 } else { self.sets.count };
        let [a, b, c, d, e, f, g, h] = self.sets.numbers;
        println!(rt; "{width} {mask} {value} {lo} {hi} {count} {a} {b} {c} {d} {e} {f} {g} {h}")
    }
}
