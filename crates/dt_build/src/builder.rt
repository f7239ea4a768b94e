ghost use Rattle.std.specs.Prelude.{◌≡◌, IfOk};
ghost use Rattle.std.specs.List.{AllByRecursion};
ghost use Rattle.dt_bits.specs.Bits.{IsWidth};
ghost use Rattle.dt_build.specs.Building.{of_choices};

use crate::folding::folded_in;
use crate::node::{node_in, term_count};
use crate::nodes::NodeTable;
use dt_bits::{Bv, NoMemory, Op, Width};
use dt_forms::Folded;
use dt_terms::{Problem, Term};
use std::alloc::Global;
use std::marker::Model;

/// A problem that is built. Its choices stand first; behind them each node stands only once.
///
/// A call answers `NoMemory` where memory ran out, and where the term can't be added to the
/// problem: there is no room for it, an operand isn't there, or the operator doesn't fit. Then
/// nothing is said of what stands.
///
/// `place` puts a node as it is asked for; `fold` and the calls for truths, tests and blocks fold
/// operators whose operands are constants.
#[derive(Drop)]
pub struct Builder {
    problem: Problem,
    // The terms that stand behind the choices.
    nodes: NodeTable,
}

impl Model for Builder {
    ghost use Rattle.dt_terms.specs.Problem.{ProblemData};
    ghost use Rattle.dt_build.specs.Building.{AreChoicesAnd};

    ghost Value = { ProblemData };

    ghost view = { λ b. b.problem };

    ghost invariant = { λ b. AreChoicesAnd b.problem.terms b.nodes };
}

// The problem of choices alone.
fn problem_of(alloc: Global, choices: &[Width]) -> Result<Problem, NoMemory>
    requires { AllByRecursion (λ w. IsWidth w.0) choices.now }
    ensures { IfOk result (λ p. p ≡ of_choices choices.now) }
{
    let mut problem = Problem::new(alloc)?;
    for width in choices {
        if problem.add_choice(*width).is_err() {
            return Err(NoMemory);
        }
    }
    Ok(problem)
}

impl Builder {
    ghost use Rattle.std.specs.Prelude.{◌≡◌, ◌<◌, ◌^◌, ◌++◌, ◌∷◌, [], IfOk, OnOk};
    ghost use Rattle.std.specs.List.{AllByRecursion};
    ghost use Rattle.dt_bits.specs.Bits.{IsWidth};
    ghost use Rattle.dt_bits.specs.Ops.{IsOp};
    ghost use Rattle.dt_bits.specs.declared.op.Op.TheVariants.{Shr};
    ghost use Rattle.dt_terms.specs.Additions.{with_required};
    ghost use Rattle.dt_forms.specs.Placing.{place, place_const};
    ghost use Rattle.dt_forms.specs.Folding.{fold, claim_placed};
    ghost use Rattle.dt_forms.specs.Forms.{term, form1, not_of, both_of, implies, same_of, less_of};
    ghost use Rattle.dt_build.specs.Building.{placed_in, of_choices};

    /// A problem of choices of these widths, with no nodes and nothing required.
    pub fn new(alloc: Global, choices: &[Width]) -> Result<Builder, NoMemory>
        requires { AllByRecursion (λ w. IsWidth w.0) choices.now }
        ensures { IfOk result (λ b. b ≡ of_choices choices.now) }
    {
        let problem = problem_of(alloc, choices)?;
        Ok(Builder {
            problem,
            nodes: NodeTable::new(alloc),
        })
    }

    /// Where the operator's node over these terms stands, which is put behind the terms unless it
    /// stands already. Operands that the operator doesn't have are ignored.
    pub fn place(&mut self, op: Op, a: u32, b: u32, c: u32) -> Result<u32, NoMemory>
        requires { IsOp op }
        ensures at { IfOk result (λ t. t ≡ (place self.old.terms op a b c).at) }
        ensures placed { OnOk result (self.new ≡ placed_in self.old (place self.old.terms op a b c)) }
    {
        let node = node_in(&self.problem, op, a, b, c)?;
        let choices = term_count(&self.problem) - self.nodes.len();
        let (place, added) = self.nodes.enter(node)?;
        if !added {
            return Ok((choices + place) as u32);
        }
        match self.problem.add(op, a, b, c) {
            Ok(position) => Ok(position),
            Err(_) => {
                self.nodes.leave();
                Err(NoMemory)
            }
        }
    }

    #[tactic(auto, unfolding(dt_forms::specs::Folding::fold))]
    /// Where the operator's value over these terms stands, with constant operands folded: the node is
    /// put behind the terms only where nothing is known of it.
    pub fn fold(&mut self, op: Op, a: u32, b: u32, c: u32) -> Result<u32, NoMemory>
        requires { IsOp op }
        ensures at { IfOk result (λ t. t ≡ (fold self.old.terms op a b c).at) }
        ensures placed { OnOk result (self.new ≡ placed_in self.old (fold self.old.terms op a b c)) }
    {
        match folded_in(&self.problem, op, a, b, c)? {
            Folded::At(term) => Ok(term),
            Folded::Value(value) => self.number(value.width, value.bits),
            Folded::New => self.place(op, a, b, c),
        }
    }

    /// Where the constant of this width stands.
    pub fn number(&mut self, width: Width, bits: u128) -> Result<u32, NoMemory>
        requires width { IsWidth width.0 }
        requires bits { bits < 2 ^ width.0 }
        ensures at { IfOk result (λ t. t ≡ (place_const self.old.terms width.0 bits).at) }
        ensures placed { OnOk result (self.new ≡ placed_in self.old (place_const self.old.terms width.0 bits)) }
    {
        self.place(
            Op::Const {
                value: Bv { width, bits },
            },
            0,
            0,
            0,
        )
    }

    /// Requires a term of one bit.
    pub fn require(&mut self, term: u32) -> Result<(), NoMemory>
        ensures { OnOk result (self.new ≡ with_required self.old term) }
    {
        match self.problem.require(term) {
            Ok(()) => Ok(()),
            Err(_) => Err(NoMemory),
        }
    }

    /// Where the term is 0, for a term of one bit.
    pub fn not(&mut self, a: u32) -> Result<u32, NoMemory>
        ensures at { IfOk result (λ t. t ≡ (claim_placed self.old.terms (not_of (term a))).at) }
        ensures placed { OnOk result (self.new ≡ placed_in self.old (claim_placed self.old.terms (not_of (term a)))) }
    {
        self.fold(Op::Not, a, 0, 0)
    }

    /// Where both terms are 1, for terms of one bit.
    pub fn both(&mut self, a: u32, b: u32) -> Result<u32, NoMemory>
        ensures at { IfOk result (λ t. t ≡ (claim_placed self.old.terms (both_of (term a) (term b))).at) }
        ensures placed { OnOk result (self.new ≡ placed_in self.old (claim_placed self.old.terms (both_of (term a) (term b)))) }
    {
        self.fold(Op::And, a, b, 0)
    }

    /// Where the second term is 1 if the first is, for terms of one bit. The negation is put
    /// before the whole.
    pub fn implies(&mut self, a: u32, b: u32) -> Result<u32, NoMemory>
        ensures at { IfOk result (λ t. t ≡ (claim_placed self.old.terms (implies (term a) (term b))).at) }
        ensures placed { OnOk result (self.new ≡ placed_in self.old (claim_placed self.old.terms (implies (term a) (term b)))) }
    {
        let away = self.fold(Op::Not, a, 0, 0)?;
        self.fold(Op::Or, away, b, 0)
    }

    /// Where the terms have one value.
    pub fn same(&mut self, a: u32, b: u32) -> Result<u32, NoMemory>
        ensures at { IfOk result (λ t. t ≡ (claim_placed self.old.terms (same_of (term a) (term b))).at) }
        ensures placed { OnOk result (self.new ≡ placed_in self.old (claim_placed self.old.terms (same_of (term a) (term b)))) }
    {
        self.fold(Op::Eq, a, b, 0)
    }

    /// Where the first term's value is the less.
    pub fn less(&mut self, a: u32, b: u32) -> Result<u32, NoMemory>
        ensures at { IfOk result (λ t. t ≡ (claim_placed self.old.terms (less_of (term a) (term b))).at) }
        ensures placed { OnOk result (self.new ≡ placed_in self.old (claim_placed self.old.terms (less_of (term a) (term b)))) }
    {
        self.fold(Op::Ltu, a, b, 0)
    }

    /// Where the block stands that a term's address lies in: its value without the lowest bits.
    pub fn block(&mut self, exponent: u32, a: u32) -> Result<u32, NoMemory>
        ensures at { IfOk result (λ t. t ≡ (claim_placed self.old.terms (form1 (Shr exponent) (term a))).at) }
        ensures placed { OnOk result (self.new ≡ placed_in self.old (claim_placed self.old.terms (form1 (Shr exponent) (term a)))) }
    {
        self.fold(Op::Shr { by: exponent }, a, 0, 0)
    }

    /// What stands so far: the choices, and then the nodes in the order in which they were put.
    pub fn terms(&self) -> &[Term]
        ensures { result.now ≡ self.now.terms }
    {
        self.problem.terms.as_slice()
    }

    /// The problem that was built.
    pub fn finish(self) -> Problem
        ensures { result ≡ self }
    {
        self.problem
    }
}
