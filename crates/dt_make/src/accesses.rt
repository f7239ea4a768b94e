// The accesses, each by its position.
ghost use Rattle.std.specs.Prelude.{◌≡◌, ◌<◌, ◌≤◌, map, IfOk};
ghost use Rattle.std.specs.List.{range_with_len};
ghost use Rattle.dt_make.specs.Made.{access_name as name_at, result_at, bits as bits_of, addresses_at, demands_at, wish_at};

use dt_bits::{NoMemory, Seq};
use dt_lex::{Name, push_decimal};
use dt_request::{AccessWish, Demand, Quantity};
use std::alloc::Global;

// Inputs of the model.
const VA: u32 = 0;

const KIND: u32 = 1;

const USER: u32 = 2;

// Results of leaves at levels 2, 1 and 0.
const D30: u32 = 18;

const D21: u32 = 19;

const D12: u32 = 22;

// How many virtual addresses each access has to itself.
const GIGABYTE: u128 = 1_073_741_824;

// The letter a, and the position in decimal.
#[tactic(auto, using(crate::proofs::Listed::spelled))]
fn access_name(alloc: Global, k: u32) -> Result<Name, NoMemory>
    requires { k < 64 }
    ensures { IfOk result (λ name. name ≡ name_at k) }
{
    let mut word = Vec::new(alloc);
    word.push(b'a')?;
    push_decimal(&mut word, u128::from(k))?;
    Ok(Name::spelled(word.as_slice()))
}

// The result that the walk comes to.
fn result_node(k: u32) -> u32
    ensures { result ≡ result_at k }
{
    match k % 4 {
        2 => D21,
        3 => D30,
        _ => D12,
    }
}

fn bits(input: u32, mask: u128, value: u32) -> Demand
    ensures { result ≡ bits_of input mask value }
{
    Demand::Bits {
        of: Quantity::Input(input),
        mask,
        value: u128::from(value),
    }
}

// The gigabyte of virtual addresses that the access is in.
fn addresses(k: u32) -> Demand
    ensures { result ≡ addresses_at k }
{
    let lo = u128::from(k) * GIGABYTE;
    Demand::Span {
        of: Quantity::Input(VA),
        lo,
        hi: lo + (GIGABYTE - 1),
    }
}

fn demands(alloc: Global, k: u32) -> Result<Seq<Demand>, NoMemory>
    ensures { IfOk result (λ demands. demands ≡ demands_at k) }
{
    let via = Demand::Via(result_node(k));
    let kind = bits(KIND, 3, k % 3);
    let user = bits(USER, 1, k / 2 % 2);
    Ok(Seq::from_vec(vec![in alloc; Demand::EndDone, via, kind, user, addresses(k)]?))
}

fn wish(alloc: Global, k: u32) -> Result<AccessWish, NoMemory>
    requires { k < 64 }
    ensures { IfOk result (λ wish. wish ≡ wish_at k) }
{
    Ok(AccessWish {
        name: access_name(alloc, k)?,
        context: 0,
        demands: demands(alloc, k)?,
    })
}

/// So many accesses.
#[tactic(auto, using(crate::proofs::Ranges::wishes_more))]
pub fn wishes(alloc: Global, n: u32) -> Result<Seq<AccessWish>, NoMemory>
    requires { n ≤ 64 }
    ensures { IfOk result (λ wishes. wishes ≡ map wish_at (range_with_len 0 n)) }
{
    let mut wishes = Seq::new(alloc);
    for k in 0..n {
        wishes.push(wish(alloc, k)?)?;
    }
    Ok(wishes)
}
