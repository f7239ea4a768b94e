// Each of these appends a blank and one piece of a line.
ghost use Rattle.std.specs.Prelude.{◌≡◌, ◌++◌, ◌∷◌, [], OnOk, map};
ghost use Rattle.dt_lex.specs.Numeral.{decimal};
ghost use Rattle.dt_lex.specs.Printing.{spaced};
ghost use Rattle.dt_model.specs.ModelData.{node_of};
ghost use Rattle.dt_modeltext.specs.Print.{name_text, node_text};

use dt_lex::push_decimal;
use dt_model::{Named, Node};
use std::alloc::AllocError;

/// A number in decimal.
pub fn push_number(out: &mut Vec<u8>, n: u32) -> Result<(), AllocError>
    ensures { OnOk result (out.new.items ≡ out.old.items ++ 32 ∷ decimal n) }
{
    out.push(b' ')?;
    push_decimal(out, u128::from(n))
}

/// The name at a position.
pub fn push_name(out: &mut Vec<u8>, names: &[Named], i: u32) -> Result<(), AllocError>
    ensures { OnOk result (out.new.items ≡ out.old.items ++ 32 ∷ name_text names.now i) }
{
    out.push(b' ')?;
    match names.get(i as usize) {
        None => Ok(()),
        Some(named) => out.extend_from_slice(named.name.bytes()),
    }
}

/// The name of the node at a position.
#[tactic(auto, using(crate::proofs::PrintedPieces::target_some, crate::proofs::PrintedPieces::target_none))]
pub fn push_target(out: &mut Vec<u8>, nodes: &[Node], i: u32) -> Result<(), AllocError>
    ensures { OnOk result (
        out.new.items ≡ out.old.items ++ 32 ∷ node_text (map node_of nodes.now) i) }
{
    out.push(b' ')?;
    match nodes.get(i as usize) {
        None => Ok(()),
        Some(node) => {
            out.extend_from_slice(node.name.bytes())?;
            Ok(())
        }
    }
}

/// The names of two nodes.
pub fn push_targets(
    out: &mut Vec<u8>,
    nodes: &[Node],
    then_to: u32,
    other: u32,
) -> Result<(), AllocError>
    ensures { OnOk result (out.new.items ≡ out.old.items ++ spaced
        (node_text (map node_of nodes.now) then_to ∷ node_text (map node_of nodes.now) other ∷ [])) }
{
    push_target(out, nodes, then_to)?;
    push_target(out, nodes, other)
}
