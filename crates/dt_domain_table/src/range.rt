//! Ranges in a line: width, lo and hi.
ghost use Rattle.std.specs.Prelude.{◌≡◌, true, IfSome};
ghost use Rattle.dt_range.specs.Range.{IsRange};

use crate::asked::Written;
use crate::numbers::small;
use dt_bits::{Width, ones};
use dt_range::Range;
use std::io;

/// Whether these are the data of a domain.
fn is_range(r: &Range) -> bool
    ensures { result ≡ true → IsRange r.now }
{
    let width = r.width.0;
    if width < 1 || width > 128 {
        return false;
    }
    let most = ones(r.width);
    r.lo <= most && r.hi <= most && (r.lo <= r.hi || r.lo == 1 && r.hi == 0)
}

/// The range of this width at a place.
pub fn range_at(given: &[u128], width: Width, at: usize) -> Option<Range>
    ensures is { IfSome result IsRange }
    ensures width { IfSome result (λ r. r.width ≡ width) }
{
    if at > 100 {
        return None;
    }
    let range = Range {
        lo: *given.get(at)?,
        hi: *given.get(at + 1)?,
        width,
    };
    if is_range(&range) { Some(range) } else { None }
}

impl Written for Range {
    fn read(numbers: &[u128], place: usize) -> Option<Range> {
        let at = 3 + 3 * place;
        range_at(numbers, Width(small(numbers, at)?), at + 1)
    }

    fn print(&self, rt: &HostRuntime) -> io::Result<()> {
        let width = self.width.0;
        let lo = self.lo;
        let hi = self.hi;
        println!(rt; "{width} {lo} {hi}")
    }
}
