// How each access relates to the one before it.
ghost use Rattle.std.specs.Prelude.{◌≡◌, ◌≤◌, ◌-◌, ◌++◌, IfOk, OnOk};
ghost use Rattle.std.specs.List.{flat_map, range_with_len};
ghost use Rattle.dt_make.specs.Made.{last_read as last_read_of, links_at};

use dt_bits::{NoMemory, Seq};
use dt_request::{Link, Side};
use std::alloc::Global;

// The read of level 0.
const R0: u32 = 14;

fn last_read(access: u32) -> Side
    ensures { result ≡ last_read_of access }
{
    Side { access, node: R0 }
}

fn push_links(links: &mut Seq<Link>, k: u32) -> Result<(), NoMemory>
    requires { 1 ≤ k }
    ensures { OnOk result (links.new ≡ links.old ++ links_at k) }
{
    links.push(Link::ApartPage(k - 1, k))?;
    if k % 4 == 1 {
        links.push(Link::ShareTable(last_read(k - 1), last_read(k)))?;
    }
    Ok(())
}

/// The links of so many accesses.
#[tactic(auto, using(crate::proofs::Ranges::links_more))]
pub fn all_links(alloc: Global, n: u32) -> Result<Seq<Link>, NoMemory>
    requires { 1 ≤ n }
    ensures { IfOk result (λ links. links ≡ flat_map links_at (range_with_len 1 (n - 1))) }
{
    let mut links = Seq::new(alloc);
    for k in 1..n {
        push_links(&mut links, k)?;
    }
    Ok(links)
}
