ghost use Rattle.std.specs.Prelude.{◌≡◌, ◌+◌, ◌<◌, ◌≤◌, ℕ, map, IfOk, IfErr, Some, None};
ghost use Rattle.std.specs.List.{All};
ghost use Rattle.dt_model.specs.ModelData.{tree_of};
ghost use Rattle.dt_model.specs.Scopes.{scope_of};
ghost use Rattle.dt_model.specs.Widths.{HasArities, AreWidths};
ghost use Rattle.dt_model.specs.Faults.{RuleBreaks, rule_operators};
ghost use Rattle.dt_model.specs.Refusals.{IsSmallest, IsFirst, RulesBreak};

use crate::limits::{MOST_DEPTH, MOST_MODEL_OPERATORS, MOST_OPERATORS, MOST_RULES};
use crate::measuring::{differ, measure};
use crate::surveying::{depth_of, names_unknown, operators_in};
use crate::{Expr, ModelRefusal, Names};

/// The refusal of a rule at a position, after rules with so many operators.
fn rule_fault(i: usize, rule: &Expr, names: &Names, before: u32) -> Option<ModelRefusal>
    requires few { before ≤ 8192 }
    requires arities { HasArities (tree_of rule.now) }
    requires regs { AreWidths names.now.regs.now }
    requires inputs { AreWidths names.now.inputs.now }
    requires vars { AreWidths names.now.vars.now }
    ensures { IsSmallest (RuleBreaks (scope_of names.now) i before (tree_of rule.now)) result }
{
    let measured = measure(rule, names);
    let operators = operators_in(rule);
    if names_unknown(rule, names) {
        Some(ModelRefusal::UnknownName)
    } else if measured.mismatch || differ(measured.width, Some(1)) {
        Some(ModelRefusal::WidthMismatch)
    } else if measured.range {
        Some(ModelRefusal::WidthRange)
    } else if i >= MOST_RULES
        || operators > MOST_OPERATORS
        || before + operators > MOST_MODEL_OPERATORS
    {
        Some(ModelRefusal::TooMany)
    } else if depth_of(rule) > MOST_DEPTH {
        Some(ModelRefusal::TooDeep)
    } else {
        None
    }
}

/// The first of these rules that is at fault; else the operators of them and of what stands
/// before them.
pub fn rules_fault(rules: &[Expr], names: &Names, before: u32) -> Result<u32, (u32, ModelRefusal)>
    requires few { before ≤ 8192 }
    requires arities { All (λ e. HasArities (tree_of e)) rules.now }
    requires regs { AreWidths names.now.regs.now }
    requires inputs { AreWidths names.now.inputs.now }
    requires vars { AreWidths names.now.vars.now }
    ensures none { IfOk result (λ total. IsFirst (RulesBreak (scope_of names.now) before (map tree_of rules.now)) None) }
    ensures total { IfOk result (λ total. total ≡ before + rule_operators (map tree_of rules.now)) }
    ensures few { IfOk result (λ total. total ≤ 8192) }
    ensures first { IfErr result (λ f. IsFirst (RulesBreak (scope_of names.now) before (map tree_of rules.now)) (Some f)) }
{
    let mut total = before;
    for (i, rule) in rules.iter().enumerate() {
        if let Some(refusal) = rule_fault(i, rule, names, total) {
            return Err((i as u32, refusal));
        }
        total += operators_in(rule);
    }
    Ok(total)
}
