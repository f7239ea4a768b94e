// One level of a stage: the entry is read, and then judged.
ghost use Rattle.std.specs.Prelude.{◌≡◌, ◌<◌, ◌+◌, ◌++◌, ◌∷◌, [], map, IfOk};
ghost use Rattle.dt_model.specs.ModelData.{tree_of, act_of, node_of, var, read};
ghost use Rattle.dt_stage.specs.Level.{bad_flags, is_reserved, invalid, points, has_high, bad_pointer, stale, is_misaligned, bad_upper_leaf, bad_napot, bad_last_leaf, placed_of, node as named, decides, upper_tests, last_tests, upper_nodes, last_nodes};

use crate::stages::extend;
use crate::trees::{bit, both, either, is, no, part};
use dt_bits::NoMemory;
use dt_lex::Name;
use dt_model::{Act, Expr, Node};
use std::alloc::Global;

/// A node of this name.
pub fn node(name: Name, act: Act) -> Node
    ensures { node_of result ≡ named name (act_of act) }
{
    Node { name, act }
}

/// A node that tests.
pub fn decision(name: Name, test: Expr, then_to: u32, other: u32) -> Node
    ensures { node_of result ≡ named name (decides (tree_of test) then_to other) }
{
    node(
        name,
        Act::If {
            test,
            then_to,
            other,
        },
    )
}

// V isn't set, or W is and R isn't.
fn bad_flags(alloc: Global, e: u32) -> Result<Expr, NoMemory>
    ensures { IfOk result (λ t. tree_of t ≡ bad_flags (var e)) }
{
    let no_r = no(alloc, bit(alloc, 1, Expr::Var(e))?)?;
    let w = both(alloc, no_r, bit(alloc, 2, Expr::Var(e))?)?;
    either(alloc, no(alloc, bit(alloc, 0, Expr::Var(e))?)?, w)
}

// A reserved bit, or the reserved memory type.
fn is_reserved(alloc: Global, e: u32) -> Result<Expr, NoMemory>
    ensures { IfOk result (λ t. tree_of t ≡ is_reserved (var e)) }
{
    let reserved = is(alloc, part(alloc, 60, 54, Expr::Var(e))?, 7, 0)?;
    let pbmt = is(alloc, part(alloc, 62, 61, Expr::Var(e))?, 2, 3)?;
    either(alloc, no(alloc, reserved)?, pbmt)
}

// The entry isn't valid, or has a reserved bit or encoding.
fn invalid(alloc: Global, e: u32) -> Result<Expr, NoMemory>
    ensures { IfOk result (λ t. tree_of t ≡ invalid (var e)) }
{
    let flags = bad_flags(alloc, e)?;
    either(alloc, flags, is_reserved(alloc, e)?)
}

// It is a pointer.
fn points(alloc: Global, e: u32) -> Result<Expr, NoMemory>
    ensures { IfOk result (λ t. tree_of t ≡ points (var e)) }
{
    let no_r = no(alloc, bit(alloc, 1, Expr::Var(e))?)?;
    let no_x = no(alloc, bit(alloc, 3, Expr::Var(e))?)?;
    both(alloc, no_r, no_x)
}

// N or a memory type.
fn has_high(alloc: Global, e: u32) -> Result<Expr, NoMemory>
    ensures { IfOk result (λ t. tree_of t ≡ has_high (var e)) }
{
    let pbmt = is(alloc, part(alloc, 62, 61, Expr::Var(e))?, 2, 0)?;
    either(alloc, bit(alloc, 63, Expr::Var(e))?, no(alloc, pbmt)?)
}

// A pointer with U, A, D, N or a memory type.
fn bad_pointer(alloc: Global, e: u32) -> Result<Expr, NoMemory>
    ensures { IfOk result (λ t. tree_of t ≡ bad_pointer (var e)) }
{
    let high = has_high(alloc, e)?;
    let d = either(alloc, bit(alloc, 7, Expr::Var(e))?, high)?;
    let a = either(alloc, bit(alloc, 6, Expr::Var(e))?, d)?;
    either(alloc, bit(alloc, 4, Expr::Var(e))?, a)
}

// A isn't set, or the access stores and D isn't set.
fn stale(alloc: Global, stores: Expr, e: u32) -> Result<Expr, NoMemory>
    ensures { IfOk result (λ t. tree_of t ≡ stale (tree_of stores) (var e)) }
{
    let no_a = no(alloc, bit(alloc, 6, Expr::Var(e))?)?;
    let no_d = no(alloc, bit(alloc, 7, Expr::Var(e))?)?;
    either(alloc, no_a, both(alloc, stores, no_d)?)
}

// A part of the page number below level `i + 1`.
fn is_misaligned(alloc: Global, i: u32, e: u32) -> Result<Expr, NoMemory>
    requires { i < 4 }
    ensures { IfOk result (λ t. tree_of t ≡ is_misaligned i (var e)) }
{
    let low = part(alloc, 18 + 9 * i, 10, Expr::Var(e))?;
    no(alloc, is(alloc, low, 9 + 9 * i, 0)?)
}

// The test of a leaf at level `i + 1`.
fn bad_upper_leaf(
    alloc: Global,
    permits: Expr,
    stores: Expr,
    i: u32,
    e: u32,
) -> Result<Expr, NoMemory>
    requires { i < 4 }
    ensures { IfOk result (λ t. tree_of t ≡ bad_upper_leaf (tree_of permits) (tree_of stores) i (var e)) }
{
    let misaligned = is_misaligned(alloc, i, e)?;
    let rest = either(alloc, misaligned, stale(alloc, stores, e)?)?;
    let all = either(alloc, no(alloc, permits)?, rest)?;
    either(alloc, bit(alloc, 63, Expr::Var(e))?, all)
}

// N for another size than 2^16 bytes.
fn bad_napot(alloc: Global, e: u32) -> Result<Expr, NoMemory>
    ensures { IfOk result (λ t. tree_of t ≡ bad_napot (var e)) }
{
    let low = part(alloc, 13, 10, Expr::Var(e))?;
    let other_size = no(alloc, is(alloc, low, 4, 8)?)?;
    both(alloc, bit(alloc, 63, Expr::Var(e))?, other_size)
}

// The test of a leaf at level 0.
fn bad_last_leaf(alloc: Global, permits: Expr, stores: Expr, e: u32) -> Result<Expr, NoMemory>
    ensures { IfOk result (λ t. tree_of t ≡ bad_last_leaf (tree_of permits) (tree_of stores) (var e)) }
{
    let rest = either(alloc, no(alloc, permits)?, stale(alloc, stores, e)?)?;
    either(alloc, bad_napot(alloc, e)?, rest)
}

/// A level's entry: its variable, its address and the exponent of its table's block; whether the
/// access may use it as a leaf, and whether the access stores; and the node to which a leaf leads.
#[derive(Debug, Drop)]
pub struct Level {
    pub entry: u32,
    pub cell: Expr,
    pub granule: u32,
    pub permits: Expr,
    pub stores: Expr,
    pub leaf: u32,
}

/// Where a level's first node stands, and the nodes for an entry that can't be read, for a fault of
/// the stage, and, above level 0, for what comes after a pointer.
#[derive(Clone, Copy, Debug)]
pub struct Place {
    pub at: u32,
    pub unread: u32,
    pub fault: u32,
    pub next: u32,
}

/// The names of the nodes of a level above 0: the read, and the tests in their order.
#[derive(Clone, Copy, Debug)]
pub struct UpperNames {
    pub read: Name,
    pub invalid: Name,
    pub pointer: Name,
    pub bad_pointer: Name,
    pub bad_leaf: Name,
}

/// The names of the nodes of level 0.
#[derive(Clone, Copy, Debug)]
pub struct LastNames {
    pub read: Name,
    pub invalid: Name,
    pub pointer: Name,
    pub bad_leaf: Name,
}

// The node that reads a level's entry.
fn reading(name: Name, entry: u32, cell: Expr, granule: u32, place: Place) -> Node
    requires { place.at < 100000 }
    ensures { node_of result ≡ named name (read entry (tree_of cell) granule (place.at + 1) place.unread) }
{
    node(
        name,
        Act::Read {
            var: entry,
            cell,
            granule,
            then_to: place.at + 1,
            other: place.unread,
        },
    )
}

// A node, more of them, and a last one.
#[tactic(auto, using(crate::proofs::Appends::around_nodes))]
fn around(alloc: Global, first: Node, between: Vec<Node>, last: Node) -> Result<Vec<Node>, NoMemory>
    ensures { IfOk result (λ v. map node_of v.items
        ≡ node_of first ∷ (map node_of between.items ++ node_of last ∷ [])) }
{
    let mut nodes = vec![in alloc; first]?;
    extend(&mut nodes, between)?;
    nodes.push(last)?;
    Ok(nodes)
}

// The tests of an entry above level 0, but for those of a leaf.
#[tactic(auto, using(crate::proofs::Appends::three_nodes))]
fn upper_tests(
    alloc: Global,
    names: UpperNames,
    e: u32,
    place: Place,
) -> Result<Vec<Node>, NoMemory>
    requires { place.at < 100000 }
    ensures { IfOk result (λ v. map node_of v.items ≡ upper_tests names e place) }
{
    let invalid = decision(names.invalid, invalid(alloc, e)?, place.fault, place.at + 2);
    let pointer = decision(names.pointer, points(alloc, e)?, place.at + 3, place.at + 4);
    let bad_pointer = decision(
        names.bad_pointer,
        bad_pointer(alloc, e)?,
        place.fault,
        place.next,
    );
    Ok(vec![in alloc; invalid, pointer, bad_pointer]?)
}

// The tests of an entry at level 0, but for those of a leaf.
#[tactic(auto, using(crate::proofs::Appends::two_nodes))]
fn last_tests(alloc: Global, names: LastNames, e: u32, place: Place) -> Result<Vec<Node>, NoMemory>
    requires { place.at < 100000 }
    ensures { IfOk result (λ v. map node_of v.items ≡ last_tests names e place) }
{
    let invalid = decision(names.invalid, invalid(alloc, e)?, place.fault, place.at + 2);
    let pointer = decision(names.pointer, points(alloc, e)?, place.fault, place.at + 3);
    Ok(vec![in alloc; invalid, pointer]?)
}

/// The nodes of level `i + 1`.
pub fn upper_level(
    alloc: Global,
    names: UpperNames,
    i: u32,
    level: Level,
    place: Place,
) -> Result<Vec<Node>, NoMemory>
    requires i { i < 4 }
    requires at { place.at < 100000 }
    ensures { IfOk result (λ v. map node_of v.items ≡ upper_nodes names i (placed_of level place)) }
{
    let tests = upper_tests(alloc, names, level.entry, place)?;
    let test = bad_upper_leaf(alloc, level.permits, level.stores, i, level.entry)?;
    let read = reading(names.read, level.entry, level.cell, level.granule, place);
    let bad_leaf = decision(names.bad_leaf, test, place.fault, level.leaf);
    around(alloc, read, tests, bad_leaf)
}

/// The nodes of level 0, where each pointer is a fault.
pub fn last_level(
    alloc: Global,
    names: LastNames,
    level: Level,
    place: Place,
) -> Result<Vec<Node>, NoMemory>
    requires at { place.at < 100000 }
    ensures { IfOk result (λ v. map node_of v.items ≡ last_nodes names (placed_of level place)) }
{
    let tests = last_tests(alloc, names, level.entry, place)?;
    let test = bad_last_leaf(alloc, level.permits, level.stores, level.entry)?;
    let read = reading(names.read, level.entry, level.cell, level.granule, place);
    let bad_leaf = decision(names.bad_leaf, test, place.fault, level.leaf);
    around(alloc, read, tests, bad_leaf)
}
