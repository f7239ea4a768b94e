ghost use Rattle.std.specs.Prelude.{◌≡◌, ◌++◌, ◌∷◌, [], map, OnOk};
ghost use Rattle.std.specs.List.{flat_map};
ghost use Rattle.dt_model.specs.ModelData.{data_of};
ghost use Rattle.dt_model.specs.Faults.{steps};
ghost use Rattle.dt_build.specs.Building.{claimed};
ghost use Rattle.dt_forms.specs.Forms.{term};
ghost use Rattle.dt_table.specs.Apart.{pages_at};
ghost use Rattle.dt_table.specs.Claims.{ends_only};
ghost use Rattle.dt_ways.specs.Ends.{ends_done};
ghost use Rattle.dt_table.specs.Demands.{result_form, quantity_forms, quantity_width, demand_forms};
ghost use Rattle.dt_claims.specs.Tests.{test_form};
ghost use Rattle.dt_claims.specs.Views.{access_of};

use crate::ends::{Ending, require_ends};
use crate::numbers::{Test, require_result_tests, require_test};
use crate::outs::{edge_at, out_at};
use crate::places::Places;
use crate::sized::push_pages;
use crate::terms::offset;
use crate::widths::quantity_width;
use dt_bits::NoMemory;
use dt_build::Builder;
use dt_model::Model;
use dt_request::{Demand, Quantity};
use dt_table::Out;
use std::alloc::Global;

// The walk ends with a result that passes the test.
fn require_address(
    alloc: Global,
    builder: &mut Builder,
    model: &Model,
    outs: &[Out],
    width: u32,
    test: Test,
) -> Result<(), NoMemory>
    ensures { OnOk result (builder.new ≡ claimed builder.old
        (ends_only ends_done (steps (data_of model.now)) outs.now
        ++ map (result_form (test_form width test)) (pages_at (steps (data_of model.now)) outs.now))) }
{
    require_ends(builder, Ending::Result, model, outs)?;
    let mut pages = Vec::new(alloc);
    push_pages(model, outs, &mut pages)?;
    require_result_tests(builder, width, test, pages.as_slice())
}

// The read is made, and its number passes the test.
fn require_read(
    builder: &mut Builder,
    made: u32,
    width: u32,
    test: Test,
    number: u32,
) -> Result<(), NoMemory>
    ensures { OnOk result (builder.new ≡ claimed builder.old (term made ∷ test_form width test number ∷ [])) }
{
    builder.require(made)?;
    require_test(builder, width, test, number)
}

// There is such a number, and it passes the test.
fn require_quantity(
    alloc: Global,
    builder: &mut Builder,
    model: &Model,
    places: Places,
    outs: &[Out],
    of: Quantity,
    test: Test,
) -> Result<(), NoMemory>
    ensures { let d = data_of model.now in
        OnOk result (builder.new ≡ claimed builder.old
        (quantity_forms d (access_of places) outs.now of (test_form (quantity_width d of) test))) }
{
    let width = quantity_width(model, of);
    match of {
        Quantity::Reg(reg) => require_test(builder, width, test, offset(places.regs, reg)?),
        Quantity::Input(input) => require_test(builder, width, test, offset(places.inputs, input)?),
        Quantity::Word(node) => {
            let out = out_at(outs, node);
            require_read(builder, out.by_then, width, test, out.word)
        }
        Quantity::Cell(node) => {
            let out = out_at(outs, node);
            require_read(builder, out.by_then, width, test, out.value)
        }
        Quantity::Pa => require_address(alloc, builder, model, outs, width, test),
    }
}

// The walk meets the demand.
fn require_demand(
    alloc: Global,
    builder: &mut Builder,
    model: &Model,
    places: Places,
    outs: &[Out],
    demand: Demand,
) -> Result<(), NoMemory>
    ensures { OnOk result (builder.new ≡ claimed builder.old
        (demand_forms (data_of model.now) (access_of places) outs.now demand)) }
{
    match demand {
        Demand::Via(node) => builder.require(out_at(outs, node).come),
        Demand::Avoid(node) => builder.require(out_at(outs, node).away),
        Demand::Take { node, by_then } => builder.require(edge_at(by_then, out_at(outs, node))),
        Demand::EndDone => require_ends(builder, Ending::Result, model, outs),
        Demand::EndFault(code) => require_ends(builder, Ending::Fault(code), model, outs),
        Demand::Page(exponent) => require_ends(builder, Ending::Page(exponent), model, outs),
        Demand::Bits { of, mask, value } => {
            let test = Test::Masked { mask, value };
            require_quantity(alloc, builder, model, places, outs, of, test)
        }
        Demand::Span { of, lo, hi } => {
            let test = Test::Within { lo, hi };
            require_quantity(alloc, builder, model, places, outs, of, test)
        }
    }
}

/// Requires what the demands ask of the walk of an access. It takes memory for the walk's results.
pub(crate) fn require_demands(
    alloc: Global,
    builder: &mut Builder,
    model: &Model,
    places: Places,
    outs: &[Out],
    demands: &[Demand],
) -> Result<(), NoMemory>
    ensures { OnOk result (builder.new ≡ claimed builder.old
        (flat_map (demand_forms (data_of model.now) (access_of places) outs.now) demands.now)) }
{
    for demand in demands {
        require_demand(alloc, builder, model, places, outs, *demand)?;
    }
    Ok(())
}
