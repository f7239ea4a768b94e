use crate::evaluation::{are_ones, fill, fit_choices};
use crate::lookup::{is_full, node_over, number_at};
use crate::{Term, TermFault};
use dt_bits::{NoMemory, Op, Seq, Width};
use std::alloc::Global;
use std::marker::Model;

/// Terms, and which of them must be 1.
///
/// There are at most 4,000,000 terms. The operands of a node stand before it, and those that its
/// operator doesn't have are 0; the operator fits their widths, and gives the node's width. Each
/// required term is there and has one bit.
#[derive(Debug, Drop)]
pub struct Problem {
    /// The terms, in the order in which they were added.
    pub terms: Seq<Term>,
    /// The positions of the terms that must be 1.
    pub required: Seq<u32>,
    // The positions of the choices, in rising order.
    choices: Vec<u32>,
}

impl Model for Problem {
    ghost use Rattle.std.specs.Prelude.{◌≡◌};
    ghost use Rattle.dt_terms.specs.Problem.{ProblemData, IsProblem};
    ghost use Rattle.dt_terms.specs.Terms.{choices_of};

    ghost Value = { ProblemData };

    ghost view = { λ p. record { terms = p.terms; required = p.required } };

    ghost invariant = { λ p. IsProblem (record { terms = p.terms; required = p.required }) × (p.choices.items ≡ choices_of p.terms) };
}

impl Problem {
    ghost use Rattle.std.specs.Prelude.{◌≡◌, ◌⊎◌, ◌↔◌, [], ◌<◌, length, slice_get, IsTrue, IsOkAnd, IfOk, IfErr, IfSome, OnErr, OnOk, Err, Some, None};
    ghost use Rattle.dt_bits.specs.Bits.{IsWidth};
    ghost use Rattle.dt_bits.specs.Ops.{IsOp};
    ghost use Rattle.dt_terms.specs.declared.term.Term.TheVariants.{Choice};
    ghost use Rattle.dt_terms.specs.Terms.{is_choice, term_at, choices_of};
    ghost use Rattle.dt_terms.specs.Additions.{with_term, with_required, node_of, node_fault, choice_fault, require_fault};
    ghost use Rattle.dt_terms.specs.Values.{IsAssignment, values_of, solves};

    /// A problem without terms. It takes no memory yet, and so it doesn't fail.
    pub fn new(alloc: Global) -> Result<Problem, NoMemory>
        ensures { IsOkAnd result (λ p. p ≡ record { terms = []; required = [] }) }
    {
        Ok(Problem {
            terms: Seq::new(alloc),
            required: Seq::new(alloc),
            choices: Vec::new(alloc),
        })
    }

    /// Appends a choice of this width, and answers its position. `Full` exactly where there are
    /// 4,000,000 terms. A refusal changes nothing.
    pub fn add_choice(&mut self, width: Width) -> Result<u32, TermFault>
        requires { IsWidth width.0 }
        ensures position { IfOk result (λ n. n ≡ length self.old.terms) }
        ensures added { OnOk result (self.new ≡ with_term self.old (Choice width)) }
        ensures kept { OnErr result (self.new ≡ self.old) }
        ensures refused { IfSome (choice_fault self.old.terms) (λ fault. result ≡ Err fault) }
        ensures cause { IfErr result (λ e. (e ≡ TermFault.Memory) ⊎ (Some e ≡ choice_fault self.old.terms)) }
    {
        if is_full(self.terms.as_slice()) {
            return Err(TermFault::Full);
        }
        let position = self.terms.len() as u32;
        self.choices.reserve(1)?;
        self.terms.push(Term::Choice { width })?;
        self.choices.push_reserved(position);
        Ok(position)
    }

    /// Appends the operator's node over terms of the problem, and answers its position. Operands
    /// that the operator doesn't have are ignored, and stand as 0. `Full` exactly where there are
    /// 4,000,000 terms; then `Operand` exactly where an operand that is used isn't the position of
    /// a term; then `Width` exactly where the operator doesn't fit their widths. A refusal changes
    /// nothing.
    pub fn add(&mut self, op: Op, a: u32, b: u32, c: u32) -> Result<u32, TermFault>
        requires { IsOp op }
        ensures position { IfOk result (λ n. n ≡ length self.old.terms) }
        ensures added { OnOk result (self.new ≡ with_term self.old (node_of self.old.terms op a b c)) }
        ensures kept { OnErr result (self.new ≡ self.old) }
        ensures refused { IfSome (node_fault self.old.terms op a b c) (λ fault. result ≡ Err fault) }
        ensures cause { IfErr result (λ e. (e ≡ TermFault.Memory) ⊎ (Some e ≡ node_fault self.old.terms op a b c)) }
    {
        if is_full(self.terms.as_slice()) {
            return Err(TermFault::Full);
        }
        let node = node_over(self.terms.as_slice(), op, a, b, c)?;
        let position = self.terms.len() as u32;
        self.terms.push(node)?;
        Ok(position)
    }

    /// Names a term that must be 1. `Operand` exactly where there is no such term, and `Width`
    /// exactly where it hasn't one bit. A refusal changes nothing.
    pub fn require(&mut self, term: u32) -> Result<(), TermFault>
        ensures added { OnOk result (self.new ≡ with_required self.old term) }
        ensures kept { OnErr result (self.new ≡ self.old) }
        ensures refused { IfSome (require_fault self.old.terms term) (λ fault. result ≡ Err fault) }
        ensures cause { IfErr result (λ e. (e ≡ TermFault.Memory) ⊎ (Some e ≡ require_fault self.old.terms term)) }
    {
        match self.terms.get(term as usize) {
            None => return Err(TermFault::Operand),
            Some(named) => if named.width().0 != 1 {
                return Err(TermFault::Width);
            },
        }
        self.required.push(term)?;
        Ok(())
    }

    /// How many choices there are.
    pub fn choice_count(&self) -> u32
        ensures { result ≡ length (choices_of self.now.terms) }
    {
        self.choices.len() as u32
    }

    /// The position of a choice, by its number counted from 0; None exactly where there is no such
    /// choice. It takes constant time.
    pub fn choice_term(&self, choice: u32) -> Option<u32>
        ensures value { result ≡ slice_get (choices_of self.now.terms) choice }
        ensures there { IfSome result (λ t. (t < length self.now.terms) × IsTrue (is_choice (term_at self.now.terms t))) }
    {
        number_at(&self.choices, choice)
    }

    /// Whether these are numbers for the choices in order: one for each, below two to its width.
    pub fn is_assignment(&self, values: &[u128]) -> bool
        ensures { IsTrue result ↔ IsAssignment self.now.terms values.now }
    {
        values.len() == self.choices.len()
            && fit_choices(self.terms.as_slice(), &self.choices, values)
    }

    /// Writes the value of each term, where `values` are the numbers of the choices in order, and
    /// answers whether each required term is 1. It goes once over the terms and takes no memory.
    pub fn eval(&self, values: &[u128], out: &mut [u128]) -> bool
        requires values { IsAssignment self.now.terms values.now }
        requires out { length out.old ≡ length self.now.terms }
        ensures values { out.new ≡ values_of self.now.terms values.now }
        ensures solves { result ≡ solves self.now values.now }
    {
        fill(self.terms.as_slice(), values, out);
        are_ones(self.required.as_slice(), out)
    }
}
