ghost use Rattle.std.specs.Prelude.{◌≡◌, ◌^◌, ◌-◌, ◌<◌, ◌++◌, ◌∷◌, [], IfOk, OnOk, Ok, codes, length, map};
ghost use Rattle.std.specs.List.{flat_map};
ghost use Rattle.dt_lex.specs.Numeral.{hex};
ghost use Rattle.dt_lex.specs.Printing.{row_text, text_of};
ghost use Rattle.dt_model.specs.ModelData.{data_of};
ghost use Rattle.dt_model.specs.Accepted.{accepted_data};
ghost use Rattle.dt_model.specs.Faults.{names_of};
ghost use Rattle.dt_request.specs.Lists.{access_names, IsList};
ghost use Rattle.dt_request.specs.Entry.{node_names};
ghost use Rattle.dt_request.specs.Read.{reading};
ghost use Rattle.dt_request.specs.Print.{name_text, quantity_row, branch_text, demand_row, access_rows, sides_row, pages_row, link_row, version_of, keep_row, context_row, printed};

use crate::list::{AccessWish, Demand, KeptRange, Link, Quantity, Requests, Side};
use dt_bits::NoMemory;
use dt_lex::{Name, Piece, push_row};
use dt_model::{Accepted, Model, Named};
use std::alloc::{AllocError, Global};

// ---- names by their positions

#[tactic(auto, using(crate::proofs::Printed::node_some, crate::proofs::Printed::node_none))]
fn node_word(model: &Model, at: u32) -> &[u8]
    ensures { result.now ≡ name_text (node_names (data_of model.now)) at }
{
    match model.nodes.as_slice().get(at as usize) {
        None => b"",
        Some(node) => node.name.bytes(),
    }
}

#[tactic(auto, using(crate::proofs::Printed::named_some, crate::proofs::Printed::named_none))]
fn named_word(names: &[Named], at: u32) -> &[u8]
    ensures { result.now ≡ name_text (names_of names.now) at }
{
    match names.get(at as usize) {
        None => b"",
        Some(named) => named.name.bytes(),
    }
}

fn context_word(contexts: &[Name], at: u32) -> &[u8]
    ensures { result.now ≡ name_text contexts.now at }
{
    match contexts.get(at as usize) {
        None => b"",
        Some(name) => name.bytes(),
    }
}

#[tactic(auto, using(crate::proofs::Printed::access_some, crate::proofs::Printed::access_none))]
fn access_word(accesses: &[AccessWish], at: u32) -> &[u8]
    ensures { result.now ≡ name_text (access_names accesses.now) at }
{
    match accesses.get(at as usize) {
        None => b"",
        Some(wish) => wish.name.bytes(),
    }
}

// ---- demands

/// A demand on a quantity that has a name, of two numbers.
fn push_named<'w>(
    out: &mut Vec<u8>,
    word: &[u8],
    kind: &'w [u8],
    name: &'w [u8],
    first: u128,
    second: u128,
) -> Result<(), AllocError>
    ensures { OnOk result (out.new.items ≡ out.old.items ++ row_text
        (word.now ∷ kind.now ∷ name.now ∷ hex first ∷ hex second ∷ [])) }
{
    push_row(
        out,
        word,
        &[
            Piece::Word(kind),
            Piece::Word(name),
            Piece::Hex(first),
            Piece::Hex(second),
        ],
    )
}

/// A demand on a quantity, of two numbers.
fn push_measured(
    out: &mut Vec<u8>,
    model: &Model,
    word: &[u8],
    of: Quantity,
    first: u128,
    second: u128,
) -> Result<(), AllocError>
    ensures { OnOk result (out.new.items ≡ out.old.items ++ row_text
        (word.now ∷ (quantity_row (data_of model.now) of ++ hex first ∷ hex second ∷ []))) }
{
    match of {
        Quantity::Reg(i) => {
            let name = named_word(model.regs.as_slice(), i);
            push_named(out, word, b"reg", name, first, second)
        }
        Quantity::Input(i) => {
            let name = named_word(model.inputs.as_slice(), i);
            push_named(out, word, b"in", name, first, second)
        }
        Quantity::Word(node) => {
            push_named(out, word, b"word", node_word(model, node), first, second)
        }
        Quantity::Cell(node) => {
            push_named(out, word, b"cell", node_word(model, node), first, second)
        }
        Quantity::Pa => {
            let pieces = [Piece::Word(b"pa"), Piece::Hex(first), Piece::Hex(second)];
            push_row(out, word, &pieces)
        }
    }
}

fn branch_word(by_then: bool) -> &'static [u8]
    ensures { result.now ≡ branch_text by_then }
{
    if by_then { b"then" } else { b"else" }
}

fn push_demand(out: &mut Vec<u8>, model: &Model, demand: Demand) -> Result<(), AllocError>
    ensures { OnOk result (out.new.items
        ≡ out.old.items ++ row_text (demand_row (data_of model.now) demand)) }
{
    match demand {
        Demand::Via(node) => push_row(out, b"via", &[Piece::Word(node_word(model, node))]),
        Demand::Avoid(node) => push_row(out, b"avoid", &[Piece::Word(node_word(model, node))]),
        Demand::Take { node, by_then } => {
            let node = Piece::Word(node_word(model, node));
            push_row(out, b"take", &[node, Piece::Word(branch_word(by_then))])
        }
        Demand::EndDone => push_row(out, b"ends", &[Piece::Word(b"done")]),
        Demand::EndFault(code) => {
            let code = Piece::Decimal(u128::from(code));
            push_row(out, b"ends", &[Piece::Word(b"fault"), code])
        }
        Demand::Page(exponent) => {
            push_row(out, b"page", &[Piece::Decimal(u128::from(exponent))])
        }
        Demand::Bits { of, mask, value } => push_measured(out, model, b"bits", of, mask, value),
        Demand::Span { of, lo, hi } => push_measured(out, model, b"range", of, lo, hi),
    }
}

#[tactic(auto, using(dt_lex::proofs::Rows::rows_more))]
fn push_demands(out: &mut Vec<u8>, model: &Model, demands: &[Demand]) -> Result<(), AllocError>
    ensures { OnOk result (out.new.items
        ≡ out.old.items ++ text_of (map (demand_row (data_of model.now)) demands.now)) }
{
    for demand in demands {
        push_demand(out, model, *demand)?;
    }
    Ok(())
}

// ---- accesses

fn push_access<'w>(
    out: &mut Vec<u8>,
    model: &Model,
    contexts: &'w [Name],
    wish: &'w AccessWish,
) -> Result<(), AllocError>
    ensures { OnOk result (out.new.items ≡ out.old.items
        ++ text_of (access_rows (data_of model.now) contexts.now wish.now)) }
{
    let context = context_word(contexts, wish.context);
    push_row(
        out,
        b"access",
        &[Piece::Word(wish.name.bytes()), Piece::Word(context)],
    )?;
    push_demands(out, model, wish.demands.as_slice())
}

#[tactic(auto, using(crate::proofs::Printed::blocks_more))]
fn push_accesses(
    out: &mut Vec<u8>,
    model: &Model,
    contexts: &[Name],
    accesses: &[AccessWish],
) -> Result<(), AllocError>
    ensures { OnOk result (out.new.items ≡ out.old.items
        ++ text_of (flat_map (access_rows (data_of model.now) contexts.now) accesses.now)) }
{
    for wish in accesses {
        push_access(out, model, contexts, wish)?;
    }
    Ok(())
}

// ---- links

fn push_sides<'w>(
    out: &mut Vec<u8>,
    model: &'w Model,
    accesses: &'w [AccessWish],
    word: &[u8],
    kind: &'w [u8],
    first: Side,
    second: Side,
) -> Result<(), AllocError>
    ensures { OnOk result (out.new.items ≡ out.old.items ++ row_text (word.now ∷ kind.now
        ∷ sides_row (data_of model.now) (access_names accesses.now) first second)) }
{
    push_row(
        out,
        word,
        &[
            Piece::Word(kind),
            Piece::Word(access_word(accesses, first.access)),
            Piece::Word(node_word(model, first.node)),
            Piece::Word(access_word(accesses, second.access)),
            Piece::Word(node_word(model, second.node)),
        ],
    )
}

fn push_pages(
    out: &mut Vec<u8>,
    accesses: &[AccessWish],
    word: &[u8],
    first: u32,
    second: u32,
) -> Result<(), AllocError>
    ensures { OnOk result (out.new.items ≡ out.old.items ++ row_text
        (word.now ∷ codes "page" ∷ pages_row (access_names accesses.now) first second)) }
{
    push_row(
        out,
        word,
        &[
            Piece::Word(b"page"),
            Piece::Word(access_word(accesses, first)),
            Piece::Word(access_word(accesses, second)),
        ],
    )
}

fn push_link(
    out: &mut Vec<u8>,
    model: &Model,
    accesses: &[AccessWish],
    link: Link,
) -> Result<(), AllocError>
    ensures { OnOk result (out.new.items ≡ out.old.items
        ++ row_text (link_row (data_of model.now) (access_names accesses.now) link)) }
{
    match link {
        Link::ShareTable(first, second) => {
            push_sides(out, model, accesses, b"share", b"table", first, second)
        }
        Link::ShareCell(first, second) => {
            push_sides(out, model, accesses, b"share", b"cell", first, second)
        }
        Link::SharePage(first, second) => push_pages(out, accesses, b"share", first, second),
        Link::ApartTable(first, second) => {
            push_sides(out, model, accesses, b"apart", b"table", first, second)
        }
        Link::ApartPage(first, second) => push_pages(out, accesses, b"apart", first, second),
    }
}

#[tactic(auto, using(dt_lex::proofs::Rows::rows_more))]
fn push_links(
    out: &mut Vec<u8>,
    model: &Model,
    accesses: &[AccessWish],
    links: &[Link],
) -> Result<(), AllocError>
    ensures { OnOk result (out.new.items ≡ out.old.items
        ++ text_of (map (link_row (data_of model.now) (access_names accesses.now)) links.now)) }
{
    for link in links {
        push_link(out, model, accesses, *link)?;
    }
    Ok(())
}

// ---- the whole text

/// A word, and two addresses.
fn push_bounds(out: &mut Vec<u8>, word: &[u8], lo: u128, hi: u128) -> Result<(), AllocError>
    ensures { OnOk result (out.new.items
        ≡ out.old.items ++ row_text (word.now ∷ hex lo ∷ hex hi ∷ [])) }
{
    push_row(out, word, &[Piece::Hex(lo), Piece::Hex(hi)])
}

#[tactic(auto, using(dt_lex::proofs::Rows::rows_more))]
fn push_kept(out: &mut Vec<u8>, kept: &[KeptRange]) -> Result<(), AllocError>
    ensures { OnOk result (out.new.items ≡ out.old.items ++ text_of (map keep_row kept.now)) }
{
    for range in kept {
        push_bounds(out, b"keep", range.lo, range.hi)?;
    }
    Ok(())
}

fn push_context(out: &mut Vec<u8>, name: &Name) -> Result<(), AllocError>
    ensures { OnOk result (out.new.items ≡ out.old.items ++ row_text (context_row name.now)) }
{
    push_row(out, b"context", &[Piece::Word(name.bytes())])
}

#[tactic(auto, using(dt_lex::proofs::Rows::rows_more))]
fn push_contexts(out: &mut Vec<u8>, contexts: &[Name]) -> Result<(), AllocError>
    ensures { OnOk result (out.new.items ≡ out.old.items ++ text_of (map context_row contexts.now)) }
{
    for name in contexts {
        push_context(out, name)?;
    }
    Ok(())
}

fn version_of(kept: &[KeptRange]) -> &'static [u8]
    ensures { result.now ≡ version_of kept.now }
{
    if kept.is_empty() { b"1" } else { b"2" }
}

fn push_list(out: &mut Vec<u8>, model: &Model, list: &Requests) -> Result<(), AllocError>
    ensures { OnOk result (out.new.items
        ≡ out.old.items ++ printed (data_of model.now) list.now) }
{
    let kept = list.kept.as_slice();
    let contexts = list.contexts.as_slice();
    let accesses = list.accesses.as_slice();
    push_row(out, b"requests", &[Piece::Word(version_of(kept))])?;
    push_bounds(out, b"tables", list.lo, list.hi)?;
    push_kept(out, kept)?;
    push_contexts(out, contexts)?;
    push_accesses(out, model, contexts, accesses)?;
    push_links(out, model, accesses, list.links.as_slice())?;
    push_row(out, b"end", &[])?;
    Ok(())
}

/// The one printed text of a list of the model, which reads back as the same list: `requests 1`, or
/// `requests 2` where there is a kept range, then the bounds, kept ranges, contexts, accesses with
/// their demands, and links in their order, one line each, and `end`. The time is linear in the
/// text, and the only error is want of memory.
pub fn print_requests(
    alloc: Global,
    model: &Accepted,
    requests: &Requests,
) -> Result<Vec<u8>, NoMemory>
    requires { IsList (accepted_data model.now) requests.now }
    ensures printed { IfOk result (λ text. text.items
        ≡ printed (accepted_data model.now) requests.now) }
    ensures reads_back { IfOk result (λ text.
        reading (accepted_data model.now) text.items ≡ Ok requests.now) }
    // So `read_requests` may be called on it.
    ensures few_bytes { IfOk result (λ text. length text.items < 2 ^ 32 - 1) }
{
    let mut out = Vec::new(alloc);
    push_list(&mut out, model.model(), requests)?;
    Ok(out)
}
