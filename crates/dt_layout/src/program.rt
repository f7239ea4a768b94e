// A model's expressions as lists of parts, each after its operands, and its nodes over them.
use crate::known::{Known, low};
use dt_bits::{NoMemory, Op};
use dt_model::{Accepted, Act, Expr, Named, Names, word_bytes};
use std::alloc::Global;

/// What a part is.
#[derive(Clone, Copy)]
pub enum Kind {
    Number(u128),
    Reg(u32),
    Input(u32),
    Var(u32),
    Apply(Op),
}

/// A part of an expression: its width, where its operands stand, and where its own first part does.
#[derive(Clone, Copy)]
pub struct Part {
    pub kind: Kind,
    pub width: u32,
    pub a: usize,
    pub b: usize,
    pub c: usize,
    pub first: usize,
}

/// A node, whose expressions stand as the positions of their last parts. A read has its place among
/// the reads.
#[derive(Clone, Copy)]
pub enum Step {
    Let {
        var: u32,
        value: usize,
        next: usize,
    },
    Read {
        var: u32,
        cell: usize,
        granule: u32,
        place: usize,
        then_to: usize,
        other: usize,
    },
    If {
        test: usize,
        then_to: usize,
        other: usize,
    },
    Fault {
        code: u32,
    },
    Done {
        pa: usize,
        page: u32,
    },
}

/// A model that is laid out for placing.
#[derive(Drop)]
pub struct Program {
    pub parts: Vec<Part>,
    pub steps: Vec<Step>,
    pub context_rules: Vec<usize>,
    pub access_rules: Vec<usize>,
    pub regs: usize,
    pub inputs: usize,
    pub reads: usize,
    pub vars: usize,
    /// The addresses' bits.
    pub addresses: u128,
    /// The words' bits.
    pub words: u128,
    /// The bytes of a word.
    pub bytes: u128,
}

// No part stands here.
const NOWHERE: usize = usize::MAX;

// The width of a name.
fn width_of(names: &[Named], i: u32) -> u32 {
    match names.get(i as usize) {
        Some(named) => named.width,
        None => 1,
    }
}

// The width of a part.
fn width_at(parts: &[Part], at: usize) -> u32 {
    match parts.get(at) {
        Some(part) => part.width,
        None => 1,
    }
}

// Where the first part of an operand stands.
fn first_at(parts: &[Part], at: usize) -> usize {
    match parts.get(at) {
        Some(part) => part.first,
        None => at,
    }
}

// The width of an operator's result.
fn result_width(op: Op, a: u32, b: u32) -> u32 {
    match op {
        Op::Const { value } => value.width.0,
        Op::Slice { hi, lo } => hi.saturating_sub(lo).saturating_add(1),
        Op::Concat => a.saturating_add(b),
        Op::SignExt { to } => to,
        Op::Eq | Op::Ltu => 1,
        Op::Ite => b,
        _ => a,
    }
}

// Appends a part, and answers where it stands.
fn add(parts: &mut Vec<Part>, part: Part) -> Result<usize, NoMemory> {
    let at = parts.len();
    parts.push(part)?;
    Ok(at)
}

// Appends a part without operands.
fn leaf(parts: &mut Vec<Part>, kind: Kind, width: u32) -> Result<usize, NoMemory> {
    let first = parts.len();
    let part = Part {
        kind,
        width,
        a: NOWHERE,
        b: NOWHERE,
        c: NOWHERE,
        first,
    };
    add(parts, part)
}

// Appends an operator over parts.
fn apply(parts: &mut Vec<Part>, op: Op, a: usize, b: usize, c: usize) -> Result<usize, NoMemory> {
    let part = Part {
        kind: Kind::Apply(op),
        width: result_width(op, width_at(parts, a), width_at(parts, b)),
        a,
        b,
        c,
        first: first_at(parts, a),
    };
    add(parts, part)
}

// Appends an expression, and answers where its last part stands.
fn lay_out(parts: &mut Vec<Part>, names: &Names, e: &Expr) -> Result<usize, NoMemory> {
    match e {
        Expr::Value { width, bits } => leaf(parts, Kind::Number(*bits), *width),
        Expr::Reg(i) => leaf(parts, Kind::Reg(*i), width_of(names.regs, *i)),
        Expr::Input(i) => leaf(parts, Kind::Input(*i), width_of(names.inputs, *i)),
        Expr::Var(i) => leaf(parts, Kind::Var(*i), width_of(names.vars, *i)),
        Expr::Apply1 { op, a } => {
            let a = lay_out(parts, names, a)?;
            apply(parts, *op, a, NOWHERE, NOWHERE)
        }
        Expr::Apply2 { op, a, b } => {
            let a = lay_out(parts, names, a)?;
            let b = lay_out(parts, names, b)?;
            apply(parts, *op, a, b, NOWHERE)
        }
        Expr::Apply3 { op, a, b, c } => {
            let a = lay_out(parts, names, a)?;
            let b = lay_out(parts, names, b)?;
            let c = lay_out(parts, names, c)?;
            apply(parts, *op, a, b, c)
        }
    }
}

// Appends a node's expression, and answers the node.
fn step_of(
    parts: &mut Vec<Part>,
    names: &Names,
    act: &Act,
    place: usize,
) -> Result<Step, NoMemory> {
    Ok(match act {
        Act::Let { var, value, next } => Step::Let {
            var: *var,
            value: lay_out(parts, names, value)?,
            next: *next as usize,
        },
        Act::Read {
            var,
            cell,
            granule,
            then_to,
            other,
        } => Step::Read {
            var: *var,
            cell: lay_out(parts, names, cell)?,
            granule: *granule,
            place,
            then_to: *then_to as usize,
            other: *other as usize,
        },
        Act::If {
            test,
            then_to,
            other,
        } => Step::If {
            test: lay_out(parts, names, test)?,
            then_to: *then_to as usize,
            other: *other as usize,
        },
        Act::Fault { code } => Step::Fault { code: *code },
        Act::Done { pa, page } => Step::Done {
            pa: lay_out(parts, names, pa)?,
            page: *page,
        },
    })
}

// Appends expressions, and answers where their last parts stand.
fn lay_out_all(
    alloc: Global,
    parts: &mut Vec<Part>,
    names: &Names,
    rules: &[Expr],
) -> Result<Vec<usize>, NoMemory> {
    let mut roots = Vec::new(alloc);
    for rule in rules {
        roots.push(lay_out(parts, names, rule)?)?;
    }
    Ok(roots)
}

impl Program {
    /// The model, laid out.
    pub fn new(alloc: Global, model: &Accepted) -> Result<Program, NoMemory> {
        let m = model.model();
        let names = Names {
            regs: m.regs.as_slice(),
            inputs: m.inputs.as_slice(),
            vars: m.vars.as_slice(),
        };
        let mut parts = Vec::new(alloc);
        let context_rules = lay_out_all(alloc, &mut parts, &names, m.legal_context.as_slice())?;
        let access_rules = lay_out_all(alloc, &mut parts, &names, m.legal_access.as_slice())?;
        let mut steps = Vec::new(alloc);
        let mut reads: usize = 0;
        for node in m.nodes.iter() {
            let step = step_of(&mut parts, &names, &node.act, reads)?;
            if let Step::Read { .. } = step {
                reads = reads.saturating_add(1);
            }
            steps.push(step)?;
        }
        Ok(Program {
            parts,
            steps,
            context_rules,
            access_rules,
            regs: m.regs.len(),
            inputs: m.inputs.len(),
            reads,
            vars: m.vars.len(),
            addresses: low(m.address),
            words: low(m.word),
            bytes: u128::from(word_bytes(model)),
        })
    }

    /// The part at a position, and a number without bits past the end.
    pub fn part(&self, at: usize) -> Part {
        match self.parts.get(at) {
            Some(part) => *part,
            None => Part {
                kind: Kind::Number(0),
                width: 1,
                a: NOWHERE,
                b: NOWHERE,
                c: NOWHERE,
                first: at,
            },
        }
    }

    /// The node at a position, and a fault past the end.
    pub fn step(&self, at: usize) -> Step {
        match self.steps.get(at) {
            Some(step) => *step,
            None => Step::Fault { code: 0 },
        }
    }

    /// The width of a part.
    pub fn width(&self, at: usize) -> u32 {
        width_at(&self.parts, at)
    }

    /// The place of a read node among the reads, and the first place for another node.
    pub fn place(&self, node: u32) -> usize {
        match self.step(node as usize) {
            Step::Read { place, .. } => place,
            _ => 0,
        }
    }
}
