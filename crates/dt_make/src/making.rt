ghost use Rattle.std.specs.Prelude.{◌≡◌, ◌≤◌, ◌⊎◌, IfOk, IfErr, Err, false};
ghost use Rattle.std.specs.Bool.{OnFalse};
ghost use Rattle.dt_model.specs.Accepted.{accepted_data};
ghost use Rattle.dt_sv39.specs.Shipped.{sv39_data};
ghost use Rattle.dt_request.specs.Lists.{IsList};
ghost use Rattle.dt_make.specs.Made.{can_be_made, made, StandNamed};

use crate::MakeFault;
use crate::accesses::wishes;
use crate::links::all_links;
use dt_bits::{NoMemory, Seq};
use dt_lex::Name;
use dt_model::Accepted;
use dt_request::Requests;
use std::alloc::Global;

/// The most accesses of a list.
const MOST: u64 = 64;

/// Whether a list of so many accesses can be made: there are 1 to 64.
pub fn can_be_made(n: u64) -> bool
    ensures { result ≡ can_be_made n }
{
    n != 0 && n <= MOST
}

// Where tables lie: sixteen megabytes.
const LO: u128 = 0x8000_0000;

const HI: u128 = 0x8100_0000;

#[tactic(auto, unfolding(crate::specs::Made::made))]
fn requests(alloc: Global, n: u32) -> Result<Requests, NoMemory>
    requires some { 1 ≤ n }
    requires few { n ≤ 64 }
    ensures { IfOk result (λ list. list ≡ made n) }
{
    let contexts = vec![in alloc; Name::spelled(b"c0")]?;
    Ok(Requests {
        lo: LO,
        hi: HI,
        kept: Seq::new(alloc),
        contexts: Seq::from_vec(contexts),
        accesses: wishes(alloc, n)?,
        links: all_links(alloc, n)?,
    })
}

/// The generated list of `n` accesses, which is a list of the shipped model of Sv39. It takes memory
/// and time linear in `n`.
///
/// # Errors
///
/// `OutOfRange` exactly where `n` is 0 or above 64. `Memory` where memory ran out.
#[tactic(auto, using(crate::proofs::Listed::named_in))]
pub fn make_requests(alloc: Global, model: &Accepted, n: u64) -> Result<Requests, MakeFault>
    requires { accepted_data model.now ≡ sv39_data }
    ensures list { IfOk result (λ list. list ≡ made n) }
    ensures of_model { IfOk result (IsList (accepted_data model.now)) }
    ensures refused { OnFalse (can_be_made n) (result ≡ Err MakeFault.OutOfRange) }
    ensures cause { IfErr result (λ e. (e ≡ MakeFault.Memory)
        ⊎ ((e ≡ MakeFault.OutOfRange) × (can_be_made n ≡ false))) }
    // The positions in the list say what they should.
    ensures named { StandNamed (accepted_data model.now) }
{
    if n == 0 || n > MOST {
        return Err(MakeFault::OutOfRange);
    }
    Ok(requests(alloc, n as u32)?)
}
