ghost use Rattle.std.specs.Prelude.{◌≡◌, ◌<◌, IfOk, length};
ghost use Rattle.dt_model.specs.ModelData.{act_of, tree_of, bind, read, branch, done};
ghost use Rattle.dt_unroll.specs.Fronts.{access_data, blank, IsReady, Passes};

use crate::fork::{Sides, fork};
use crate::frame::{Frame, is_cell};
use crate::front::Front;
use crate::places::place_expression;
use dt_bits::NoMemory;
use dt_build::Builder;
use dt_model::{Act, Expr};
use dt_table::Out;

// What stands for a node that leads nowhere.
fn blank(frame: &Frame, front: &Front, at: usize) -> Out
    requires { at < length front.now.come.items }
    ensures { result ≡ blank (access_data frame.now) front.now at }
{
    Out {
        come: front.come[at],
        value: frame.zero,
        by_then: frame.zero,
        by_other: frame.zero,
        word: frame.zero,
        away: front.away,
    }
}

// A node that assigns a value.
fn pass_let(
    builder: &mut Builder,
    frame: &Frame,
    front: &mut Front,
    at: usize,
    var: u32,
    value: &Expr,
    next: u32,
) -> Result<Out, NoMemory>
    requires { IsReady frame.now front.old at (bind var (tree_of value.now) next) }
    ensures { IfOk result (λ out. Passes (access_data frame.now) at (bind var (tree_of value.now) next) builder.old front.old builder.new front.new out) }
{
    let out = blank(frame, front, at);
    let value = place_expression(builder, &frame.places, front.vars.as_slice(), value)?;
    front.assign(builder, var, out.come, value)?;
    front.join(builder, next, out.come)?;
    Ok(Out {
        value,
        by_then: out.come,
        ..out
    })
}

// A node that reads a word.
fn pass_read(
    builder: &mut Builder,
    frame: &Frame,
    front: &mut Front,
    at: usize,
    var: u32,
    cell: &Expr,
    sides: Sides,
) -> Result<Out, NoMemory>
    requires { IsReady frame.now front.old at (read var (tree_of cell.now) 0 sides.then_to sides.other) }
    ensures { IfOk result (λ out. Passes (access_data frame.now) at (read var (tree_of cell.now) 0 sides.then_to sides.other) builder.old front.old builder.new front.new out) }
{
    let out = blank(frame, front, at);
    let value = place_expression(builder, &frame.places, front.vars.as_slice(), cell)?;
    let made = is_cell(builder, frame, value)?;
    let edges = fork(builder, out.come, made)?;
    let word = front.next_word()?;
    front.assign(builder, var, edges.by_then, word)?;
    front.part(builder, sides, edges)?;
    Ok(Out {
        value,
        by_then: edges.by_then,
        by_other: edges.by_other,
        word,
        ..out
    })
}

// A node that goes on by a test.
fn pass_if(
    builder: &mut Builder,
    frame: &Frame,
    front: &mut Front,
    at: usize,
    test: &Expr,
    sides: Sides,
) -> Result<Out, NoMemory>
    requires { IsReady frame.now front.old at (branch (tree_of test.now) sides.then_to sides.other) }
    ensures { IfOk result (λ out. Passes (access_data frame.now) at (branch (tree_of test.now) sides.then_to sides.other) builder.old front.old builder.new front.new out) }
{
    let out = blank(frame, front, at);
    let value = place_expression(builder, &frame.places, front.vars.as_slice(), test)?;
    let edges = fork(builder, out.come, value)?;
    front.part(builder, sides, edges)?;
    Ok(Out {
        value,
        by_then: edges.by_then,
        by_other: edges.by_other,
        ..out
    })
}

// A node that ends at an address.
fn pass_done(
    builder: &mut Builder,
    frame: &Frame,
    front: &mut Front,
    at: usize,
    pa: &Expr,
    page: u32,
) -> Result<Out, NoMemory>
    requires { IsReady frame.now front.old at (done (tree_of pa.now) page) }
    ensures { IfOk result (λ out. Passes (access_data frame.now) at (done (tree_of pa.now) page) builder.old front.old builder.new front.new out) }
{
    let out = blank(frame, front, at);
    let value = place_expression(builder, &frame.places, front.vars.as_slice(), pa)?;
    Ok(Out { value, ..out })
}

/// One node: puts its terms, and answers what stands for it.
pub fn pass(
    builder: &mut Builder,
    frame: &Frame,
    front: &mut Front,
    at: usize,
    act: &Act,
) -> Result<Out, NoMemory>
    requires { IsReady frame.now front.old at (act_of act.now) }
    ensures { IfOk result (λ out. Passes (access_data frame.now) at (act_of act.now) builder.old front.old builder.new front.new out) }
{
    match act {
        Act::Let { var, value, next } => { pass_let(builder, frame, front, at, *var, value, *next) }
        Act::Read {
            var,
            cell,
            then_to,
            other,
            ..
        } => {
            let sides = Sides {
                then_to: *then_to,
                other: *other,
            };
            pass_read(builder, frame, front, at, *var, cell, sides)
        }
        Act::If {
            test,
            then_to,
            other,
        } => {
            let sides = Sides {
                then_to: *then_to,
                other: *other,
            };
            pass_if(builder, frame, front, at, test, sides)
        }
        Act::Fault { .. } => Ok(blank(frame, front, at)),
        Act::Done { pa, page } => pass_done(builder, frame, front, at, pa, *page),
    }
}
