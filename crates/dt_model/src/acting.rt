ghost use Rattle.std.specs.Prelude.{◌≡◌, ◌↔◌, ℕ, ◌+◌, ◌<◌, ◌≤◌, Bool, true, false, not, ◌&&◌, ◌||◌, ◌==◌, nat_lt, nat_le, min, List, length, Option, Some, None, IsTrue};
ghost use Rattle.dt_model.specs.ModelData.{act_of};
ghost use Rattle.dt_model.specs.Scopes.{scope_of};
ghost use Rattle.dt_model.specs.Sets.{has};
ghost use Rattle.dt_model.specs.Flow.{found};
ghost use Rattle.dt_model.specs.Widths.{has_unknown, has_mismatch, has_bad_range, uses, depth, HasArities, AreWidths};
ghost use Rattle.dt_model.specs.Faults.{on_tree, tree_in, var_unknown, step_mismatch, step_range, step_operators, targets, any, assigned, word_exponent, StepArities};
ghost use Rattle.dt_model.specs.Refusals.{IsSmallest, flag};
ghost use Rattle.dt_model.specs.Marks.{UsesOf, AssignsOf};

use crate::limits::{GREATEST_CODE, MOST_DEPTH};
use crate::measuring::{differ, measure, width_of_name};
use crate::set::VarSet;
use crate::surveying::{depth_of, names_unknown, operators_in, uses_any};
use crate::{Act, Names};

/// Whether the act names a position outside its list.
pub fn act_unknown(act: &Act, names: &Names) -> bool
    ensures { result ≡ (on_tree (act_of act.now) (has_unknown (scope_of names.now)) || var_unknown (length names.now.vars.now) (act_of act.now)) }
{
    match act {
        Act::Let { var, value, .. } => names_unknown(value, names)
            || names.vars.len() <= *var as usize,
        Act::Read { var, cell, .. } => names_unknown(cell, names)
            || names.vars.len() <= *var as usize,
        Act::If { test, .. } => names_unknown(test, names),
        Act::Fault { .. } => false,
        Act::Done { pa, .. } => names_unknown(pa, names),
    }
}

/// Whether something in the act has another width than is asked.
pub fn act_mismatch(act: &Act, names: &Names, word: u32, address: u32) -> bool
    requires arities { StepArities (act_of act.now) }
    requires regs { AreWidths names.now.regs.now }
    requires inputs { AreWidths names.now.inputs.now }
    requires vars { AreWidths names.now.vars.now }
    ensures { result ≡ (on_tree (act_of act.now) (has_mismatch (scope_of names.now)) || step_mismatch word address (scope_of names.now) (act_of act.now)) }
{
    match act {
        Act::Let { var, value, .. } => {
            let m = measure(value, names);
            m.mismatch || differ(m.width, width_of_name(names.vars, *var))
        }
        Act::Read { var, cell, .. } => {
            let m = measure(cell, names);
            m.mismatch
                || differ(m.width, Some(address))
                || differ(width_of_name(names.vars, *var), Some(word))
        }
        Act::If { test, .. } => {
            let m = measure(test, names);
            m.mismatch || differ(m.width, Some(1))
        }
        Act::Fault { .. } => false,
        Act::Done { pa, .. } => {
            let m = measure(pa, names);
            m.mismatch || differ(m.width, Some(address))
        }
    }
}

/// The exponent of two of a word's bytes.
fn exponent(word: u32) -> u32
    ensures { result ≡ word_exponent word }
{
    if word == 8 {
        0
    } else if word == 16 {
        1
    } else if word == 32 {
        2
    } else {
        3
    }
}

/// Whether a number of bits, a constant, a code, a granule or a page exponent is out of its range.
pub fn act_range(act: &Act, names: &Names, word: u32, address: u32) -> bool
    requires arities { StepArities (act_of act.now) }
    requires regs { AreWidths names.now.regs.now }
    requires inputs { AreWidths names.now.inputs.now }
    requires vars { AreWidths names.now.vars.now }
    ensures { result ≡ (on_tree (act_of act.now) (has_bad_range (scope_of names.now)) || step_range word address (act_of act.now)) }
{
    match act {
        Act::Let { value, .. } => measure(value, names).range,
        Act::Read { cell, granule, .. } => {
            measure(cell, names).range || *granule < exponent(word) || address < *granule
        }
        Act::If { test, .. } => measure(test, names).range,
        Act::Fault { code } => *code > GREATEST_CODE,
        Act::Done { pa, page } => measure(pa, names).range || address < *page,
    }
}

fn is_back(to: u32, i: usize, count: usize) -> bool
    ensures { result ≡ (nat_lt to count && nat_le to i) }
{
    (to as usize) < count && to as usize <= i
}

/// Whether a target is a node that isn't later than node `i` of so many.
pub fn act_back(act: &Act, i: usize, count: usize) -> bool
    ensures { result ≡ any (targets (act_of act.now)) (λ t. nat_lt t count && nat_le t i) }
{
    match act {
        Act::Let { next, .. } => is_back(*next, i, count),
        Act::Read { then_to, other, .. } => is_back(*then_to, i, count)
            || is_back(*other, i, count),
        Act::If { then_to, other, .. } => is_back(*then_to, i, count) || is_back(*other, i, count),
        Act::Fault { .. } | Act::Done { .. } => false,
    }
}

/// Whether a target is no node of so many.
pub fn act_no_node(act: &Act, count: usize) -> bool
    ensures { result ≡ any (targets (act_of act.now)) (λ t. nat_le count t) }
{
    match act {
        Act::Let { next, .. } => count <= *next as usize,
        Act::Read { then_to, other, .. } => count <= *then_to as usize || count <= *other as usize,
        Act::If { then_to, other, .. } => count <= *then_to as usize || count <= *other as usize,
        Act::Fault { .. } | Act::Done { .. } => false,
    }
}

/// Whether the act uses one of the first variables that the set has.
pub fn act_left(act: &Act, left: &VarSet, count: u32) -> bool
    requires { count ≤ 512 }
    ensures { IsTrue result ↔ UsesOf left.now count (tree_in (act_of act.now)) }
{
    match act {
        Act::Let { value, .. } => uses_any(value, left, count),
        Act::Read { cell, .. } => uses_any(cell, left, count),
        Act::If { test, .. } => uses_any(test, left, count),
        Act::Fault { .. } => false,
        Act::Done { pa, .. } => uses_any(pa, left, count),
    }
}

/// Whether the act assigns one of the first variables that the set has.
pub fn act_again(act: &Act, set: &VarSet, count: u32) -> bool
    requires { count ≤ 512 }
    ensures { IsTrue result ↔ AssignsOf set.now count (assigned (act_of act.now)) }
{
    match act {
        Act::Let { var, .. } | Act::Read { var, .. } => *var < count && set.contains(*var),
        Act::If { .. } | Act::Fault { .. } | Act::Done { .. } => false,
    }
}

/// The operators of the act's expression, or 65 where there are more than 64.
pub fn act_operators(act: &Act) -> u32
    ensures { result ≡ min (step_operators (act_of act.now)) 65 }
{
    match act {
        Act::Let { value, .. } => operators_in(value),
        Act::Read { cell, .. } => operators_in(cell),
        Act::If { test, .. } => operators_in(test),
        Act::Fault { .. } => 0,
        Act::Done { pa, .. } => operators_in(pa),
    }
}

/// Whether the act's expression has more than `MOST_DEPTH` operators on one way from its root.
pub fn act_deep(act: &Act) -> bool
    ensures { result ≡ on_tree (act_of act.now) (λ t. nat_lt 32 (depth t)) }
{
    match act {
        Act::Let { value, .. } => depth_of(value) > MOST_DEPTH,
        Act::Read { cell, .. } => depth_of(cell) > MOST_DEPTH,
        Act::If { test, .. } => depth_of(test) > MOST_DEPTH,
        Act::Fault { .. } => false,
        Act::Done { pa, .. } => depth_of(pa) > MOST_DEPTH,
    }
}
