// The results of a stage: where a leaf of each level leads.
ghost use Rattle.std.specs.Prelude.{◌≡◌, ◌<◌, map, IfOk};
ghost use Rattle.dt_model.specs.ModelData.{tree_of, node_of};
ghost use Rattle.dt_stage.specs.Level.{node as named_node};
ghost use Rattle.dt_model.specs.ModelData.{bind};
ghost use Rattle.dt_sv39x4.specs.Shipped.{leads as leading, wide as widened, held as holding, led as leading_to, result_nodes as shipped_result_nodes};

use dt_bits::NoMemory;
use dt_lex::Name;
use dt_model::{Act, Expr, Node};
use dt_stage::{bit, decision, joined, node, part};
use std::alloc::Global;

/// The address that a stage leads: that of the access, or the guest's, which a variable holds.
#[derive(Clone, Copy, Debug)]
pub enum Address {
    OfAccess,
    OfGuest(u32),
}

/// Where a stage goes on, by the exponent of its page.
#[derive(Clone, Copy, Debug)]
pub struct Exits {
    pub page30: u32,
    pub page21: u32,
    pub page16: u32,
    pub page12: u32,
}

/// The names of the nodes of results, and of the test of N at level 0.
#[derive(Clone, Copy, Debug)]
pub struct ResultNames {
    pub led30: Name,
    pub led21: Name,
    pub napot: Name,
    pub led16: Name,
    pub led12: Name,
}

/// The results of a stage: their names, the position of the first, the address, the variable of the
/// entry of level 2, which those of levels 1 and 0 follow, the result's variable, and the exits.
#[derive(Clone, Copy, Debug)]
pub struct Results {
    pub names: ResultNames,
    pub at: u32,
    pub address: Address,
    pub entry: u32,
    pub out: u32,
    pub exits: Exits,
}

/// A node that gives a variable its value.
pub fn lets(name: Name, var: u32, value: Expr, next: u32) -> Node
    ensures { node_of result ≡ named_node name (bind var (tree_of value) next) }
{
    node(name, Act::Let { var, value, next })
}

/// An address of 56 bits as one of 64.
pub fn wide(alloc: Global, a: Expr) -> Result<Expr, NoMemory>
    ensures { IfOk result (λ t. tree_of t ≡ widened (tree_of a)) }
{
    joined(alloc, Expr::Value { width: 8, bits: 0 }, a)
}

fn leads(address: Address) -> Expr
    ensures { tree_of result ≡ leading address }
{
    match address {
        Address::OfAccess => Expr::Input(0),
        Address::OfGuest(x) => Expr::Var(x),
    }
}

fn held(alloc: Global, address: Address, a: Expr) -> Result<Expr, NoMemory>
    ensures { IfOk result (λ t. tree_of t ≡ holding address (tree_of a)) }
{
    match address {
        Address::OfAccess => wide(alloc, a),
        Address::OfGuest(_) => Ok(a),
    }
}

// The page number of an entry from its bit `lo` on, above the address's bits `low` to 0.
fn led(alloc: Global, address: Address, entry: u32, lo: u32, low: u32) -> Result<Expr, NoMemory>
    ensures { IfOk result (λ t. tree_of t ≡ leading_to address entry lo low) }
{
    let number = part(alloc, 53, lo, Expr::Var(entry))?;
    let offset = part(alloc, low, 0, leads(address))?;
    held(alloc, address, joined(alloc, number, offset)?)
}

/// The nodes of a stage's results.
#[tactic(auto, using(crate::proofs::Joins::joins))]
pub fn result_nodes(alloc: Global, r: Results) -> Result<Vec<Node>, NoMemory>
    requires at { r.at < 1000 }
    requires entry { r.entry < 1000 }
    ensures { IfOk result (λ v. map node_of v.items ≡ shipped_result_nodes r) }
{
    let to30 = led(alloc, r.address, r.entry, 28, 29)?;
    let to21 = led(alloc, r.address, r.entry + 1, 19, 20)?;
    let to16 = led(alloc, r.address, r.entry + 2, 14, 15)?;
    let to12 = led(alloc, r.address, r.entry + 2, 10, 11)?;
    let n = bit(alloc, 63, Expr::Var(r.entry + 2))?;
    let led30 = lets(r.names.led30, r.out, to30, r.exits.page30);
    let led21 = lets(r.names.led21, r.out, to21, r.exits.page21);
    let napot = decision(r.names.napot, n, r.at + 3, r.at + 4);
    let led16 = lets(r.names.led16, r.out, to16, r.exits.page16);
    let led12 = lets(r.names.led12, r.out, to12, r.exits.page12);
    Ok(vec![in alloc; led30, led21, napot, led16, led12]?)
}
