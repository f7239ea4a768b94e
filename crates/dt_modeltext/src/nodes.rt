ghost use Rattle.std.specs.Prelude.{◌≡◌, ◌++◌, ◌+◌, ◌^◌, ◌-◌, ◌<◌, ◌≤◌, List, IfOk, length};
ghost use Rattle.std.specs.Option.{option_to_list};
ghost use Rattle.dt_lex.specs.declared.name.Name.{Name};
ghost use Rattle.dt_lex.specs.Text.{lines_of, tokens_of};
ghost use Rattle.dt_modeltext.specs.Line.{node_name, node_names};
ghost use Rattle.dt_model.specs.NameTable.{Finds};

use dt_lex::{Name, next_line, next_token};
use dt_model::NameTable;
use std::alloc::{AllocError, Global};

/// The name of the node that a line gives.
fn node_name(line: &[u8]) -> Option<Name>
    ensures { option_to_list result ≡ node_name (tokens_of line.now) }
{
    let (word, rest) = next_token(line)?;
    let (name, _) = next_token(rest)?;
    if word == b"node".as_slice() {
        Name::read(name)
    } else {
        None
    }
}

/// Adds the name of the node that a line gives, behind `count` names, and says how many there are
/// now.
fn add_node(table: &mut NameTable, count: u32, line: &[u8]) -> Result<u32, AllocError>
    requires { count < 2 ^ 32 - 1 }
    ensures count { IfOk result (λ n. n ≡ count + length (node_name (tokens_of line.now))) }
    ensures table { IfOk result (λ n. (names : List Name) → Finds table.old names
        → length names ≡ count → Finds table.new (names ++ node_name (tokens_of line.now))) }
{
    match node_name(line) {
        None => Ok(count),
        Some(name) => {
            table.add(name, count)?;
            Ok(count + 1)
        }
    }
}

/// Where all nodes of a text stand, by their names.
pub fn node_table(alloc: Global, text: &[u8]) -> Result<NameTable, AllocError>
    requires { length text.now < 2 ^ 32 - 1 }
    ensures { IfOk result (λ table. Finds table (node_names (lines_of text.now))) }
{
    let mut table = NameTable::new(alloc);
    let mut count = 0u32;
    let mut rest = text;
    while let Some((line, after)) = next_line(rest) {
        count = add_node(&mut table, count, line)?;
        rest = after;
    }
    Ok(table)
}
