ghost use Rattle.std.specs.Prelude.{◌≡◌, ◌↔◌, ◌==◌, ◌^◌, ◌<◌, ◌≤◌, length, slice_index, All, IsTrue};
ghost use Rattle.std.specs.List.{list_all};
ghost use Rattle.dt_terms.specs.Terms.{AreTerms, IsTerm, term_at, bits_at, choices_of, choice_at};
ghost use Rattle.dt_terms.specs.Values.{IsAssignment, FitChoices, AreFit, bv_at, value_of_term, values_of};

use crate::Term;
use dt_bits::{Bv, apply, ones};

// The value of an earlier term.
fn value_at(terms: &[Term], earlier: &[u128], term: u32) -> Bv
    requires { term < length terms.now }
    ensures { result ≡ bv_at terms.now earlier.now term }
{
    let bits = match earlier.get(term as usize) {
        Some(bits) => *bits,
        None => 0,
    };
    Bv {
        width: terms[term as usize].width(),
        bits,
    }
}

// The value of the term that stands after the earlier ones; `choice` of these are choices.
fn next_value(terms: &[Term], numbers: &[u128], earlier: &[u128], choice: usize) -> u128
    requires terms { AreTerms terms.now }
    requires numbers { IsAssignment terms.now numbers.now }
    requires earlier { AreFit terms.now earlier.now }
    requires position { length earlier.now < length terms.now }
    requires choice { choice ≡ choice_at terms.now (length earlier.now) }
    ensures value { result ≡ value_of_term terms.now numbers.now earlier.now (length earlier.now) (term_at terms.now (length earlier.now)) }
    ensures fit { result < 2 ^ bits_at terms.now (length earlier.now) }
{
    match terms[earlier.len()] {
        Term::Choice { .. } => numbers[choice],
        Term::Node { op, a, b, c, .. } => {
            let first = value_at(terms, earlier, a);
            let second = value_at(terms, earlier, b);
            let third = value_at(terms, earlier, c);
            apply(op, first, second, third).bits
        }
    }
}

// Writes the value of each term.
pub(crate) fn fill(terms: &[Term], numbers: &[u128], out: &mut [u128])
    requires terms { AreTerms terms.now }
    requires numbers { IsAssignment terms.now numbers.now }
    requires out { length out.old ≡ length terms.now }
    ensures { out.new ≡ values_of terms.now numbers.now }
{
    let mut choice = 0;
    for n in 0..terms.len() {
        out[n] = next_value(terms, numbers, &out[..n], choice);
        if terms[n].is_choice() {
            choice += 1;
        }
    }
}

// Whether each of these values is 1.
pub(crate) fn are_ones(required: &[u32], values: &[u128]) -> bool
    requires { All (λ t. t < length values.now) required.now }
    ensures { result ≡ list_all (λ t. slice_index values.now t == 1) required.now }
{
    required.iter().all(|term| values[*term as usize] == 1)
}

// Whether each number has the width of its choice, of which the positions are given.
pub(crate) fn fit_choices(terms: &[Term], choices: &[u32], numbers: &[u128]) -> bool
    requires terms { AreTerms terms.now }
    requires choices { choices.now ≡ choices_of terms.now }
    requires count { length numbers.now ≡ length choices.now }
    ensures { IsTrue result ↔ FitChoices terms.now numbers.now }
{
    for k in 0..numbers.len() {
        if numbers[k] > ones(terms[choices[k] as usize].width()) {
            return false;
        }
    }
    true
}
