ghost use Rattle.std.specs.Prelude.{◌≡◌, ◌++◌, map, slice_get, IfOk, OnOk};
ghost use Rattle.std.specs.List.{flat_map};
ghost use Rattle.dt_ways.specs.Ways.{quantity_asks, asks, side_asks, page_asks, link_asks, demands_of, all_asks};

use dt_bits::NoMemory;
use dt_request::{Demand, Link, Quantity, Requests, Side};
use std::alloc::Global;

// What a demand on a quantity asks of where the walk goes.
fn quantity_asks(demand: Demand, of: Quantity) -> Demand
    ensures { result ≡ quantity_asks demand of }
{
    match of {
        Quantity::Reg(_) | Quantity::Input(_) => demand,
        Quantity::Word(node) | Quantity::Cell(node) => Demand::Take {
            node,
            by_then: true,
        },
        Quantity::Pa => Demand::EndDone,
    }
}

// What a demand asks of where the walk goes.
fn asks(demand: Demand) -> Demand
    ensures { result ≡ asks demand }
{
    match demand {
        Demand::Bits { of, .. } | Demand::Span { of, .. } => quantity_asks(demand, of),
        _ => demand,
    }
}

fn push_demands(demands: &[Demand], asked: &mut Vec<Demand>) -> Result<(), NoMemory>
    ensures { OnOk result (asked.new.items ≡ asked.old.items ++ map asks demands.now) }
{
    for demand in demands {
        asked.push(asks(*demand))?;
    }
    Ok(())
}

// That the read is made, where it is one of the access.
fn push_side(access: usize, side: Side, asked: &mut Vec<Demand>) -> Result<(), NoMemory>
    ensures { OnOk result (asked.new.items ≡ asked.old.items ++ side_asks access side) }
{
    if side.access as usize == access {
        asked.push(Demand::Take {
            node: side.node,
            by_then: true,
        })?;
    }
    Ok(())
}

// That there is a page, where it is the access's.
fn push_page(access: usize, page: u32, asked: &mut Vec<Demand>) -> Result<(), NoMemory>
    ensures { OnOk result (asked.new.items ≡ asked.old.items ++ page_asks access page) }
{
    if page as usize == access {
        asked.push(Demand::EndDone)?;
    }
    Ok(())
}

fn push_sides(access: usize, a: Side, b: Side, asked: &mut Vec<Demand>) -> Result<(), NoMemory>
    ensures { OnOk result (asked.new.items ≡ asked.old.items ++ (side_asks access a ++ side_asks access b)) }
{
    push_side(access, a, asked)?;
    push_side(access, b, asked)
}

fn push_pages(access: usize, a: u32, b: u32, asked: &mut Vec<Demand>) -> Result<(), NoMemory>
    ensures { OnOk result (asked.new.items ≡ asked.old.items ++ (page_asks access a ++ page_asks access b)) }
{
    push_page(access, a, asked)?;
    push_page(access, b, asked)
}

fn push_link(access: usize, link: Link, asked: &mut Vec<Demand>) -> Result<(), NoMemory>
    ensures { OnOk result (asked.new.items ≡ asked.old.items ++ link_asks access link) }
{
    match link {
        Link::ShareTable(a, b) | Link::ShareCell(a, b) | Link::ApartTable(a, b) => {
            push_sides(access, a, b, asked)
        }
        Link::SharePage(a, b) | Link::ApartPage(a, b) => push_pages(access, a, b, asked),
    }
}

fn push_links(access: usize, links: &[Link], asked: &mut Vec<Demand>) -> Result<(), NoMemory>
    ensures { OnOk result (asked.new.items ≡ asked.old.items ++ flat_map (link_asks access) links.now) }
{
    for link in links {
        push_link(access, *link, asked)?;
    }
    Ok(())
}

/// All that the list asks of where the walk of an access goes.
pub(crate) fn all_asks(
    alloc: Global,
    requests: &Requests,
    access: usize,
) -> Result<Vec<Demand>, NoMemory>
    ensures { IfOk result (λ v. v.items ≡ all_asks requests.now access) }
{
    let mut asked = Vec::new(alloc);
    if let Some(wish) = requests.accesses.as_slice().get(access) {
        push_demands(wish.demands.as_slice(), &mut asked)?;
    }
    push_links(access, requests.links.as_slice(), &mut asked)?;
    Ok(asked)
}
