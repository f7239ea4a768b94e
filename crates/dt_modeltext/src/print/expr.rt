ghost use Rattle.std.specs.Prelude.{◌≡◌, ◌++◌, ◌∷◌, OnOk};
ghost use Rattle.dt_lex.specs.Numeral.{decimal, hex};
ghost use Rattle.dt_model.specs.ModelData.{tree_of, data_of};
ghost use Rattle.dt_model.specs.Faults.{node_scope};
ghost use Rattle.dt_modeltext.specs.Print.{operator_text, expr_text};

use crate::print::piece::{push_name, push_number};
use dt_bits::Op;
use dt_lex::push_hex;
use dt_model::{Expr, Model};
use std::alloc::AllocError;

/// An operator's word and its numbers; a constant has none.
fn push_operator(out: &mut Vec<u8>, op: Op) -> Result<(), AllocError>
    ensures { OnOk result (out.new.items ≡ out.old.items ++ operator_text op) }
{
    match op {
        Op::Const { .. } => Ok(()),
        Op::Not => out.extend_from_slice(b"not"),
        Op::And => out.extend_from_slice(b"and"),
        Op::Or => out.extend_from_slice(b"or"),
        Op::Xor => out.extend_from_slice(b"xor"),
        Op::Add => out.extend_from_slice(b"add"),
        Op::Sub => out.extend_from_slice(b"sub"),
        Op::Slice { hi, lo } => {
            out.extend_from_slice(b"slice")?;
            push_number(out, hi)?;
            push_number(out, lo)
        }
        Op::Concat => out.extend_from_slice(b"concat"),
        Op::SignExt { to } => {
            out.extend_from_slice(b"sext")?;
            push_number(out, to)
        }
        Op::Shl { by } => {
            out.extend_from_slice(b"shl")?;
            push_number(out, by)
        }
        Op::Shr { by } => {
            out.extend_from_slice(b"shr")?;
            push_number(out, by)
        }
        Op::Eq => out.extend_from_slice(b"eq"),
        Op::Ltu => out.extend_from_slice(b"ltu"),
        Op::Ite => out.extend_from_slice(b"ite"),
    }
}

/// A blank, an opening parenthesis, and an operator directly behind it.
fn push_open(out: &mut Vec<u8>, op: Op) -> Result<(), AllocError>
    ensures { OnOk result (out.new.items ≡ out.old.items ++ 32 ∷ 40 ∷ operator_text op) }
{
    out.extend_from_slice(b" (")?;
    push_operator(out, op)
}

/// A blank, a width in decimal, a colon, and a number in hexadecimal.
fn push_constant(out: &mut Vec<u8>, width: u32, bits: u128) -> Result<(), AllocError>
    ensures { OnOk result (
        out.new.items ≡ out.old.items ++ 32 ∷ (decimal width ++ 58 ∷ hex bits)) }
{
    push_number(out, width)?;
    out.push(b':')?;
    push_hex(out, bits)
}

/// An expression, by the names of its model.
#[tactic(auto, unfolding(crate::specs::Print::expr_text), using(crate::proofs::PrintedPieces::parens_one, crate::proofs::PrintedPieces::parens_two, crate::proofs::PrintedPieces::parens_three))]
pub fn push_expr(out: &mut Vec<u8>, model: &Model, e: &Expr) -> Result<(), AllocError>
    ensures { OnOk result (out.new.items
        ≡ out.old.items ++ 32 ∷ expr_text (node_scope (data_of model.now)) (tree_of e.now)) }
{
    match e {
        Expr::Value { width, bits } => push_constant(out, *width, *bits),
        Expr::Reg(i) => push_name(out, model.regs.as_slice(), *i),
        Expr::Input(i) => push_name(out, model.inputs.as_slice(), *i),
        Expr::Var(i) => push_name(out, model.vars.as_slice(), *i),
        Expr::Apply1 { op, a } => {
            push_open(out, *op)?;
            push_expr(out, model, a)?;
            out.push(b')')?;
            Ok(())
        }
        Expr::Apply2 { op, a, b } => {
            push_open(out, *op)?;
            push_expr(out, model, a)?;
            push_expr(out, model, b)?;
            out.push(b')')?;
            Ok(())
        }
        Expr::Apply3 { op, a, b, c } => {
            push_open(out, *op)?;
            push_expr(out, model, a)?;
            push_expr(out, model, b)?;
            push_expr(out, model, c)?;
            out.push(b')')?;
            Ok(())
        }
    }
}
