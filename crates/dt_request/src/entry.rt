ghost use Rattle.std.specs.Prelude.{◌≡◌, ◌^◌, nat_le, length};
ghost use Rattle.dt_model.specs.Limits.{most_code};
ghost use Rattle.dt_model.specs.Accepted.{accepted_data};
ghost use Rattle.dt_model.specs.Bounds.{bounds_fit};
ghost use Rattle.dt_request.specs.declared.list.Demand.TheVariants as demand;
ghost use Rattle.dt_request.specs.declared.entry.Entry.TheVariants as entry;
ghost use Rattle.dt_request.specs.Draft.{declared_by, IsIndexed};
ghost use Rattle.dt_request.specs.Entry.{standing, is_allowed, known, in_range, side_in, sides_in, pages_in, link_in, keep_entry, context_entry, access_entry, measured_in, demand_in, last_demands, demand_entry, link_entry, entry_of, meaning};

use crate::asked::{AskedDemand, AskedLink, AskedQuantity, AskedSide, Line};
use crate::draft::Draft;
use crate::fault::Cause;
use crate::known::Known;
use crate::list::{AccessWish, Demand, KeptRange, Link, Quantity, Side};
use crate::measure::{can_be, quantity_in};
use dt_lex::{ANY, Name, ONE, Section, Standing, may_follow};
use dt_model::{Accepted, address_end, bounds_fit};

const MOST_KEPT: usize = 16;

const MOST_CONTEXTS: usize = 16;

const MOST_ACCESSES: usize = 64;

const MOST_DEMANDS: usize = 64;

const MOST_LINKS: usize = 256;

const GREATEST_CODE: u128 = 65535;

/// What a line adds to a list, with positions where a line has names.
#[derive(Clone, Copy)]
pub enum Entry {
    /// Whether kept ranges may stand in the text.
    Header(bool),
    Tables(u128, u128),
    Keep(KeptRange),
    Context(Name),
    Access(Name, u32),
    Demand(Demand),
    Link(Link),
    End,
}

/// The header, the bounds, kept ranges, contexts, accesses with their demands, links, and the end.
pub const SECTIONS: [Section; 7] = [ONE, ONE, ANY, ANY, ANY, ANY, ONE];

fn standing(line: &Line) -> Standing
    ensures { result ≡ standing line.now }
{
    match line {
        Line::Header { .. } => Standing::In(0),
        Line::Tables(_, _) => Standing::In(1),
        Line::Keep(_, _) => Standing::In(2),
        Line::Context(_) => Standing::In(3),
        Line::Access(_, _) => Standing::In(4),
        Line::Demand(_) => Standing::Behind(4),
        Line::Link(_) => Standing::In(5),
        Line::End => Standing::In(6),
    }
}

/// Whether a text with this header may have the line.
fn is_allowed(keeps: bool, line: &Line) -> bool
    ensures { result ≡ is_allowed keeps line.now }
{
    keeps || !matches!(line, Line::Keep(_, _))
}

/// What a name stands for, where it is declared.
fn found<T>(there: Option<T>) -> Result<T, Cause>
    ensures { result ≡ known there }
{
    there.ok_or(Cause::Unknown)
}

// ---- kept ranges, contexts and accesses

fn keep_entry(model: &Accepted, draft: &Draft, lo: u128, hi: u128) -> Result<Entry, Cause>
    ensures { result ≡ keep_entry (accepted_data model.now) (declared_by draft.now).list lo hi }
{
    if draft.kept.len() >= MOST_KEPT {
        Err(Cause::TooMany)
    } else if lo > hi || hi > address_end(model) {
        Err(Cause::OutOfRange)
    } else {
        Ok(Entry::Keep(KeptRange { lo, hi }))
    }
}

#[tactic(auto, using(crate::proofs::Names::named_found))]
fn context_entry(draft: &Draft, name: Name) -> Result<Entry, Cause>
    requires { IsIndexed draft.now }
    ensures { result ≡ context_entry (declared_by draft.now).list name }
{
    if draft.contexts.len() >= MOST_CONTEXTS {
        Err(Cause::TooMany)
    } else if draft.context_table.position(&name).is_some() {
        Err(Cause::Twice)
    } else {
        Ok(Entry::Context(name))
    }
}

#[tactic(auto, using(crate::proofs::Names::named_found))]
fn access_entry(draft: &Draft, name: Name, context: Name) -> Result<Entry, Cause>
    requires { IsIndexed draft.now }
    ensures { result ≡ access_entry (declared_by draft.now).list name context }
{
    if draft.accesses.len() >= MOST_ACCESSES {
        return Err(Cause::TooMany);
    }
    match draft.context_table.position(&context) {
        None => Err(Cause::Unknown),
        Some(position) => {
            if draft.access_table.position(&name).is_some() {
                Err(Cause::Twice)
            } else {
                Ok(Entry::Access(name, position))
            }
        }
    }
}

// ---- demands

fn page_in(model: &Accepted, exponent: u128) -> Result<Demand, Cause>
    ensures { result
        ≡ in_range (nat_le exponent (accepted_data model.now).address) (demand.Page exponent) }
{
    if exponent > u128::from(model.model().address) {
        return Err(Cause::OutOfRange);
    }
    Ok(Demand::Page(exponent as u32))
}

fn code_in(code: u128) -> Result<Demand, Cause>
    ensures { result ≡ in_range (nat_le code most_code) (demand.EndFault code) }
{
    if code > GREATEST_CODE {
        return Err(Cause::OutOfRange);
    }
    Ok(Demand::EndFault(code as u32))
}

/// The quantity of these names, which can be both numbers.
fn measured_in(
    known: &Known,
    of: AskedQuantity,
    first: u128,
    second: u128,
) -> Result<Quantity, Cause>
    ensures { result ≡ measured_in (accepted_data known.now.model.now) of first second }
{
    let of = found(quantity_in(known, of))?;
    let model = known.model();
    if can_be(model, of, first) && can_be(model, of, second) {
        Ok(of)
    } else {
        Err(Cause::OutOfRange)
    }
}

fn demand_in(known: &Known, asked: AskedDemand) -> Result<Demand, Cause>
    ensures { result ≡ demand_in (accepted_data known.now.model.now) asked }
{
    match asked {
        AskedDemand::Via(node) => Ok(Demand::Via(found(known.node(&node))?)),
        AskedDemand::Avoid(node) => Ok(Demand::Avoid(found(known.node(&node))?)),
        AskedDemand::Take { node, by_then } => {
            let node = found(known.fork(&node))?;
            Ok(Demand::Take { node, by_then })
        }
        AskedDemand::EndDone => Ok(Demand::EndDone),
        AskedDemand::EndFault(code) => code_in(code),
        AskedDemand::Page(exponent) => page_in(known.model(), exponent),
        AskedDemand::Bits { of, mask, value } => {
            let of = measured_in(known, of, mask, value)?;
            Ok(Demand::Bits { of, mask, value })
        }
        AskedDemand::Span { of, lo, hi } => {
            let of = measured_in(known, of, lo, hi)?;
            Ok(Demand::Span { of, lo, hi })
        }
    }
}

#[tactic(auto, using(crate::proofs::Demands::last_at))]
fn last_count(accesses: &[AccessWish]) -> usize
    ensures { result ≡ length (last_demands accesses.now) }
{
    match accesses.last() {
        None => 0,
        Some(wish) => wish.demands.len(),
    }
}

fn demand_entry(known: &Known, draft: &Draft, asked: AskedDemand) -> Result<Entry, Cause>
    ensures { result
        ≡ demand_entry (accepted_data known.now.model.now) (declared_by draft.now).list asked }
{
    if last_count(&draft.accesses) >= MOST_DEMANDS {
        return Err(Cause::TooMany);
    }
    Ok(Entry::Demand(demand_in(known, asked)?))
}

// ---- links

fn side_in(known: &Known, draft: &Draft, asked: AskedSide) -> Option<Side>
    requires { IsIndexed draft.now }
    ensures { result
        ≡ side_in (accepted_data known.now.model.now) (declared_by draft.now).list asked }
{
    let access = draft.access_table.position(&asked.access)?;
    let node = known.read_node(&asked.node)?;
    Some(Side { access, node })
}

fn sides_in(
    known: &Known,
    draft: &Draft,
    first: AskedSide,
    second: AskedSide,
) -> Option<(Side, Side)>
    requires { IsIndexed draft.now }
    ensures { result
        ≡ sides_in (accepted_data known.now.model.now) (declared_by draft.now).list first second }
{
    let first = side_in(known, draft, first)?;
    let second = side_in(known, draft, second)?;
    Some((first, second))
}

fn pages_in(draft: &Draft, first: Name, second: Name) -> Option<(u32, u32)>
    requires { IsIndexed draft.now }
    ensures { result ≡ pages_in (declared_by draft.now).list first second }
{
    let first = draft.access_table.position(&first)?;
    let second = draft.access_table.position(&second)?;
    Some((first, second))
}

fn link_in(known: &Known, draft: &Draft, asked: AskedLink) -> Option<Link>
    requires { IsIndexed draft.now }
    ensures { result
        ≡ link_in (accepted_data known.now.model.now) (declared_by draft.now).list asked }
{
    match asked {
        AskedLink::ShareTable(first, second) => {
            let (first, second) = sides_in(known, draft, first, second)?;
            Some(Link::ShareTable(first, second))
        }
        AskedLink::ShareCell(first, second) => {
            let (first, second) = sides_in(known, draft, first, second)?;
            Some(Link::ShareCell(first, second))
        }
        AskedLink::SharePage(first, second) => {
            let (first, second) = pages_in(draft, first, second)?;
            Some(Link::SharePage(first, second))
        }
        AskedLink::ApartTable(first, second) => {
            let (first, second) = sides_in(known, draft, first, second)?;
            Some(Link::ApartTable(first, second))
        }
        AskedLink::ApartPage(first, second) => {
            let (first, second) = pages_in(draft, first, second)?;
            Some(Link::ApartPage(first, second))
        }
    }
}

fn link_entry(known: &Known, draft: &Draft, asked: AskedLink) -> Result<Entry, Cause>
    requires { IsIndexed draft.now }
    ensures { result
        ≡ link_entry (accepted_data known.now.model.now) (declared_by draft.now).list asked }
{
    if draft.links.len() >= MOST_LINKS {
        return Err(Cause::TooMany);
    }
    Ok(Entry::Link(found(link_in(known, draft, asked))?))
}

// ---- lines

fn tables_entry(model: &Accepted, lo: u128, hi: u128) -> Result<Entry, Cause>
    ensures { result ≡ in_range (bounds_fit (accepted_data model.now) lo hi) (entry.Tables lo hi) }
{
    if bounds_fit(model, lo, hi) {
        Ok(Entry::Tables(lo, hi))
    } else {
        Err(Cause::OutOfRange)
    }
}

fn entry_of(known: &Known, draft: &Draft, line: Line) -> Result<Entry, Cause>
    requires { IsIndexed draft.now }
    ensures { result
        ≡ entry_of (accepted_data known.now.model.now) (declared_by draft.now).list line }
{
    match line {
        Line::Header { keeps } => Ok(Entry::Header(keeps)),
        Line::Tables(lo, hi) => tables_entry(known.model(), lo, hi),
        Line::Keep(lo, hi) => keep_entry(known.model(), draft, lo, hi),
        Line::Context(name) => context_entry(draft, name),
        Line::Access(name, context) => access_entry(draft, name, context),
        Line::Demand(asked) => demand_entry(known, draft, asked),
        Line::Link(asked) => link_entry(known, draft, asked),
        Line::End => Ok(Entry::End),
    }
}

/// What a line means after those that were drafted, or the first thing that is wrong with it.
pub fn meaning(known: &Known, draft: &Draft, line: Option<Line>) -> Result<Entry, Cause>
    requires { IsIndexed draft.now }
    ensures { result
        ≡ meaning (accepted_data known.now.model.now) (declared_by draft.now) line }
{
    match line {
        None => Err(Cause::Form),
        Some(line) => {
            if may_follow(&SECTIONS, draft.place, standing(&line))
                && is_allowed(draft.keeps, &line)
            {
                entry_of(known, draft, line)
            } else {
                Err(Cause::Form)
            }
        }
    }
}
