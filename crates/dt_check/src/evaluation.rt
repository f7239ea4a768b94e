ghost use Rattle.std.specs.Prelude.{◌≡◌, ◌==◌, ◌^◌, ◌<◌, All, length, slice_index, replicate, true, false, IsTrue, IsFalse, IfOk, MatchOption};
ghost use Rattle.std.specs.List.{list_all};
ghost use Rattle.dt_terms.specs.Terms.{AreTerms, bits_at, term_at, choices_of};
ghost use Rattle.dt_terms.specs.Values.{AreFit, bv_at, values_of};
ghost use Rattle.dt_check.specs.Evaluating.{value_among, IsFailing, IsFirstFailing};

use crate::marks::Marks;
use dt_bits::{Bv, NoMemory, apply};
use dt_box::Watches;
use dt_terms::{Problem, Term};
use std::alloc::Global;

// The value of a term.
fn value_at(terms: &[Term], values: &[u128], term: u32) -> Bv
    requires term { term < length terms.now }
    requires count { length values.now ≡ length terms.now }
    ensures { result ≡ bv_at terms.now values.now term }
{
    Bv {
        width: terms[term as usize].width(),
        bits: values[term as usize],
    }
}

// What the values say of a term.
fn value_among(terms: &[Term], values: &[u128], term: usize) -> u128
    requires terms { AreTerms terms.now }
    requires count { length values.now ≡ length terms.now }
    requires fit { AreFit terms.now values.now }
    requires term { term < length terms.now }
    ensures value { result ≡ value_among terms.now values.now term (term_at terms.now term) }
    ensures fit { result < 2 ^ bits_at terms.now term }
{
    match terms[term] {
        Term::Choice { .. } => values[term],
        Term::Node { op, a, b, c, .. } => {
            let first = value_at(terms, values, a);
            let second = value_at(terms, values, b);
            let third = value_at(terms, values, c);
            apply(op, first, second, third).bits
        }
    }
}

// Whether there is a required term at this place, and it isn't 1.
#[tactic(auto, using(std::proofs::lemmas::List::Folds::list_all_at))]
fn is_failing(required: &[u32], values: &[u128], place: usize) -> bool
    requires { All (λ t. t < length values.now) required.now }
    ensures failing { IsTrue result → IsFailing required.now values.now place × (list_all (λ t. slice_index values.now t == 1) required.now ≡ false) }
    ensures other { IsFalse result → IsFailing required.now values.now place → ⊥ }
{
    if place >= required.len() {
        return false;
    }
    values[required[place] as usize] != 1
}

// The place of the first required term that isn't 1.
#[tactic(auto, using(std::proofs::lemmas::List::Folds::list_all_at, std::proofs::lemmas::List::Folds::list_all_more))]
fn first_failing(required: &[u32], values: &[u128]) -> Option<usize>
    requires { All (λ t. t < length values.now) required.now }
    ensures { MatchOption result (list_all (λ t. slice_index values.now t == 1) required.now ≡ true) (λ place. IsFirstFailing required.now values.now place × (list_all (λ t. slice_index values.now t == 1) required.now ≡ false)) }
{
    for place in 0..required.len() {
        if values[required[place] as usize] != 1 {
            return Some(place);
        }
    }
    None
}

// Whether each of these values is 1. The place where one was found last that isn't is looked at first.
fn are_ones(required: &[u32], values: &[u128], failed: &mut usize) -> bool
    requires { All (λ t. t < length values.now) required.now }
    ensures ones { result ≡ list_all (λ t. slice_index values.now t == 1) required.now }
    ensures failed { IsFalse result → IsFailing required.now values.now failed.new }
{
    if is_failing(required, values, *failed) {
        return false;
    }
    match first_failing(required, values) {
        None => true,
        Some(place) => {
            *failed = place;
            false
        }
    }
}

// The values of the terms where each choice has the number 0.
fn first_values(alloc: Global, problem: &Problem) -> Result<Vec<u128>, NoMemory>
    ensures { IfOk result (λ values. values.items ≡ values_of problem.now.terms (replicate (length (choices_of problem.now.terms)) 0)) }
{
    let numbers = vec![in alloc; 0u128; problem.choice_count() as usize]?;
    let mut values = vec![in alloc; 0u128; problem.terms.len()]?;
    let _solves = problem.eval(&numbers, &mut values);
    Ok(values)
}

/// The values of a problem's terms under numbers of its choices. Where choices get other numbers, only
/// those terms are evaluated again that use a term whose value changes.
#[derive(Drop)]
pub struct Evaluation {
    values: Vec<u128>,
    // The terms that are to be evaluated again.
    marks: Marks,
    // Where among the required terms one was found last that isn't 1: it is looked at first.
    failed: usize,
}

impl Evaluation {
    ghost use Rattle.std.specs.Prelude.{◌≡◌, ℕ, ◌+◌, ◌≤◌, ◌<◌, ◌^◌, length, slice_index, slice_index_or, slice_set, false, IsTrue, IsFalse, IfOk};
    ghost use Rattle.dt_terms.specs.Terms.{AreTerms, bits_at, term_at, choices_of, is_choice};
    ghost use Rattle.dt_terms.specs.Values.{solves, values_of};
    ghost use Rattle.dt_box.specs.Watching.{watches_of};
    ghost use Rattle.dt_check.specs.Marks.{HasNone};
    ghost use Rattle.dt_check.specs.Evaluating.{AreSeenTo, AreSeenToBut, IsEvaluated, IsFailing, numbers_of};

    /// The values where each choice has the number 0. It goes once over the terms.
    pub fn new(alloc: Global, problem: &Problem) -> Result<Evaluation, NoMemory>
        ensures { IfOk result (λ e. IsEvaluated problem.now.terms e) }
    {
        Ok(Evaluation {
            values: first_values(alloc, problem)?,
            marks: Marks::new(alloc, problem.terms.len())?,
            failed: 0,
        })
    }

    /// The values of the terms.
    pub fn values(&self) -> &[u128]
        ensures { result.now ≡ self.now.values.items }
    {
        &self.values
    }

    // Gives a term a value, and marks its users where it had another.
    fn set_value(&mut self, problem: &Problem, watches: &Watches, term: u32, value: u128)
        requires watches { watches.now ≡ watches_of problem.now.terms }
        requires term { term < length problem.now.terms }
        requires value { value < 2 ^ bits_at problem.now.terms term }
        requires seen_to { AreSeenToBut problem.now.terms self.old.values.items self.old.marks.marks.items term }
        ensures seen_to { AreSeenToBut problem.now.terms self.new.values.items self.new.marks.marks.items term }
        ensures values { self.new.values.items ≡ slice_set self.old.values.items term value }
        ensures marks { (t : ℕ) → t ≤ term → slice_index_or self.new.marks.marks.items t false ≡ slice_index_or self.old.marks.marks.items t false }
        ensures failed { self.new.failed ≡ self.old.failed }
    {
        let _ = &problem.terms;
        if self.values[term as usize] != value {
            self.values[term as usize] = value;
            self.marks.mark_all(watches.users(term));
        }
    }

    /// Gives a choice a number. It takes no memory, and marks the users of the choice where it had another
    /// number.
    pub fn set_choice(&mut self, problem: &Problem, watches: &Watches, term: u32, number: u128)
        requires watches { watches.now ≡ watches_of problem.now.terms }
        requires term { term < length problem.now.terms }
        requires choice { IsTrue (is_choice (term_at problem.now.terms term)) }
        requires number { number < 2 ^ bits_at problem.now.terms term }
        requires seen_to { AreSeenTo problem.now.terms self.old.values.items self.old.marks.marks.items }
        ensures seen_to { AreSeenTo problem.now.terms self.new.values.items self.new.marks.marks.items }
        ensures values { self.new.values.items ≡ slice_set self.old.values.items term number }
        ensures failed { self.new.failed ≡ self.old.failed }
    {
        self.set_value(problem, watches, term, number);
    }

    // Evaluates a marked term before which none is marked.
    fn evaluate(&mut self, problem: &Problem, watches: &Watches, term: u32)
        requires watches { watches.now ≡ watches_of problem.now.terms }
        requires term { term < length problem.now.terms }
        requires before { HasNone self.old.marks.marks.items 0 term }
        requires seen_to { AreSeenTo problem.now.terms self.old.values.items self.old.marks.marks.items }
        ensures seen_to { AreSeenTo problem.now.terms self.new.values.items self.new.marks.marks.items }
        ensures before { HasNone self.new.marks.marks.items 0 (term + 1) }
        ensures choices { (t : ℕ) → IsTrue (is_choice (term_at problem.now.terms t)) → slice_index self.new.values.items t ≡ slice_index self.old.values.items t }
        ensures failed { self.new.failed ≡ self.old.failed }
    {
        self.marks.unmark(term);
        let value = value_among(problem.terms.as_slice(), &self.values, term as usize);
        self.set_value(problem, watches, term, value);
    }

    // Evaluates the marked terms, and those that come to be marked.
    fn evaluate_marked(&mut self, problem: &Problem, watches: &Watches)
        requires watches { watches.now ≡ watches_of problem.now.terms }
        requires seen_to { AreSeenTo problem.now.terms self.old.values.items self.old.marks.marks.items }
        ensures evaluated { IsEvaluated problem.now.terms self.new }
        ensures choices { (t : ℕ) → IsTrue (is_choice (term_at problem.now.terms t)) → slice_index self.new.values.items t ≡ slice_index self.old.values.items t }
        ensures failed { self.new.failed ≡ self.old.failed }
    {
        let _ = &problem.terms;
        let mut from = 0;
        'terms: while let Some(term) = self.marks.next(from) {
            self.evaluate(problem, watches, term as u32);
            from = term + 1;
        }
        self.marks.clear();
    }

    /// Whether the numbers that the choices have solve the problem. It evaluates the terms that use a term
    /// whose value changes, and looks first at the required term that failed last. It takes no memory.
    pub fn eval(&mut self, problem: &Problem, watches: &Watches) -> bool
        requires watches { watches.now ≡ watches_of problem.now.terms }
        requires seen_to { AreSeenTo problem.now.terms self.old.values.items self.old.marks.marks.items }
        ensures evaluated { IsEvaluated problem.now.terms self.new }
        ensures choices { (t : ℕ) → IsTrue (is_choice (term_at problem.now.terms t)) → slice_index self.new.values.items t ≡ slice_index self.old.values.items t }
        ensures values { self.new.values.items ≡ values_of problem.now.terms (numbers_of problem.now.terms self.old.values.items) }
        ensures solves { result ≡ solves problem.now (numbers_of problem.now.terms self.old.values.items) }
        ensures failed { IsFalse result → IsFailing problem.now.required self.new.values.items self.new.failed }
    {
        self.evaluate_marked(problem, watches);
        are_ones(problem.required.as_slice(), &self.values, &mut self.failed)
    }
}
