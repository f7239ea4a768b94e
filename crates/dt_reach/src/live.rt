ghost use Rattle.std.specs.Prelude.{◌≡◌, ℕ, ◌&&◌, IfOk};
ghost use Rattle.dt_reach.specs.Reach.{is_marked, ahead_of, leads, goes_on, lives, is_live};

use crate::marks::{ahead_of, is_marked};
use crate::ways::Ways;
use dt_bits::NoMemory;
use std::alloc::Global;

// Whether the way leads to a live node, where `live` tells it of later ones.
fn leads(live: &[bool], way: Option<u32>) -> bool
    ensures { result ≡ leads (is_marked live.now) way }
{
    match way {
        Some(to) => is_marked(live, to as usize),
        None => false,
    }
}

// Whether a walk may end there, or go on to a live node.
fn goes_on(live: &[bool], ways: Ways) -> bool
    ensures { result ≡ goes_on (is_marked live.now) ways }
{
    ways.ends || leads(live, ways.then_to) || leads(live, ways.other)
}

// Whether node `n` is live, where `live` tells it of later ones.
fn lives_here(ahead: &[bool], live: &[bool], n: usize, ways: Ways) -> bool
    ensures { result ≡ (is_marked ahead.now n && goes_on (is_marked live.now) ways) }
{
    is_marked(ahead, n) && goes_on(live, ways)
}

// Which nodes are live, among those that a walk can come to.
fn live_among(alloc: Global, ahead: &[bool], ways: &[Ways]) -> Result<Vec<bool>, NoMemory>
    ensures { IfOk result (λ v. (k : ℕ) → is_marked v.items k ≡ lives ahead.now ways.now 0 k) }
{
    let mut live = vec![in alloc; false; ways.len()]?;
    for n in (0..ways.len()).rev() {
        let lives = lives_here(ahead, live.as_slice(), n, ways[n]);
        live[n] = lives;
    }
    Ok(live)
}

/// Which nodes are live: a walk can come to them from node 0, and from them to an end.
pub fn live_nodes(alloc: Global, ways: &[Ways]) -> Result<Vec<bool>, NoMemory>
    ensures { IfOk result (λ v. (k : ℕ) → is_marked v.items k ≡ is_live ways.now k) }
{
    let ahead = ahead_of(alloc, ways, 0)?;
    live_among(alloc, ahead.as_slice(), ways)
}
