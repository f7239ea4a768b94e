//! A trace is a text that tells a problem and moves on its cells, a line for each, as
//! `tests/steps.py` writes it. A line is up to six numbers; a missing one is 0. The first is 0 to 14
//! for a node of the operator with that place in `Op`, 15 for a choice, 16 for a term to be required,
//! 17 and 18 for a step forward and backward, 19 for a bit to be set. Then come the node's three
//! operands and the operator's two parameters (the width and the value of a constant), or 0, 0, 0 and
//! the width of a choice, or the term and the place of a step, or the term, the bit and its value.
ghost use Rattle.std.specs.Prelude.{◌≤◌, ◌<◌, ◌^◌, All, IfOk, IfSome};
ghost use Rattle.dt_bits.specs.Bits.{IsWidth};
ghost use Rattle.dt_bits.specs.Ops.{IsOp};
ghost use Rattle.dt_box_bench.specs.Moves.{IsMove};

use crate::moves::Move;
use crate::stop::Stop;
use dt_bits::{Bv, Op, Width};
use dt_box::Step;
use dt_terms::Problem;
use std::alloc::Global;

/// The numbers of a line.
type Line = [u128; 6];

fn numbers(line: &str) -> Line {
    let mut given = [0; 6];
    let mut words = line.split_whitespace();
    for at in 0..6 {
        given[at] = match words.next() {
            Some(word) => word.parse::<u128>().unwrap_or(0),
            None => 0,
        };
    }
    given
}

/// The number, where it is small, and else one that names nothing.
fn small(number: u128) -> u32 {
    if number < u32::MAX as u128 {
        number as u32
    } else {
        u32::MAX
    }
}

fn width_of(number: u128) -> Option<Width>
    ensures { IfSome result (λ w. IsWidth w.0) }
{
    let width = small(number);
    if width < 1 || width > 128 {
        return None;
    }
    Some(Width(width))
}

fn constant(width: u128, bits: u128) -> Option<Op>
    ensures { IfSome result IsOp }
{
    let width = width_of(width)?;
    if width.0 < 128 && bits >= 1 << width.0 {
        return None;
    }
    Some(Op::Const {
        value: Bv { width, bits },
    })
}

/// The operator with this place in `Op`, with these parameters.
fn op_at(place: u128, first: u128, second: u128) -> Option<Op>
    ensures { IfSome result IsOp }
{
    match place {
        0 => constant(first, second),
        1 => Some(Op::Not),
        2 => Some(Op::And),
        3 => Some(Op::Or),
        4 => Some(Op::Xor),
        5 => Some(Op::Add),
        6 => Some(Op::Sub),
        7 => Some(Op::Slice {
            hi: small(first),
            lo: small(second),
        }),
        8 => Some(Op::Concat),
        9 => Some(Op::SignExt { to: small(first) }),
        10 => Some(Op::Shl { by: small(first) }),
        11 => Some(Op::Shr { by: small(first) }),
        12 => Some(Op::Eq),
        13 => Some(Op::Ltu),
        14 => Some(Op::Ite),
        _ => None,
    }
}

/// Adds the term or the requirement that the line tells.
fn add(problem: &mut Problem, line: &Line) -> Result<(), Stop> {
    match line[0] {
        15 => {
            let width = width_of(line[4]).ok_or(Stop::Line)?;
            problem.add_choice(width)?;
        }
        16 => problem.require(small(line[1]))?,
        17 | 18 | 19 => {}
        place => {
            let op = op_at(place, line[4], line[5]).ok_or(Stop::Line)?;
            problem.add(op, small(line[1]), small(line[2]), small(line[3]))?;
        }
    }
    Ok(())
}

/// The problem of a trace.
pub fn problem_of(alloc: Global, text: &str) -> Result<Problem, Stop> {
    let mut problem = Problem::new(alloc)?;
    for line in text.lines() {
        add(&mut problem, &numbers(line))?;
    }
    Ok(problem)
}

/// The move that the line tells, if it tells one.
fn move_of(line: &Line) -> Option<Move> {
    let (first, second) = (small(line[1]), small(line[2]));
    match line[0] {
        17 => Some(Move::Take(Step::Forward { term: first })),
        18 => Some(Move::Take(Step::Backward {
            parent: first,
            place: second,
        })),
        19 => Some(Move::Set {
            term: first,
            bit: second,
            value: line[3] == 1,
        }),
        _ => None,
    }
}

/// The moves of a trace, which are moves on cells of this problem.
pub fn moves_of(alloc: Global, problem: &Problem, text: &str) -> Result<Vec<Move>, Stop>
    ensures { IfOk result (λ moves. All (IsMove problem.now.terms) moves.items) }
{
    let mut moves = Vec::new(alloc);
    for line in text.lines() {
        if let Some(made) = move_of(&numbers(line)) {
            if !made.is_of(problem) {
                return Err(Stop::Line);
            }
            moves.push(made)?;
        }
    }
    Ok(moves)
}
