ghost use Rattle.std.specs.Prelude.{◌≡◌, slice_index, IfOk};
ghost use Rattle.dt_terms.specs.Values.{IsAssignment, values_of};

use dt_bits::NoMemory;
use dt_terms::Problem;
use std::alloc::Global;

/// The value of each term of a problem, where these are the numbers of its choices.
pub fn term_values(
    alloc: Global,
    problem: &Problem,
    numbers: &[u128],
) -> Result<Vec<u128>, NoMemory>
    requires { IsAssignment problem.now.terms numbers.now }
    ensures { IfOk result (λ values. values.items ≡ values_of problem.now.terms numbers.now) }
{
    let mut values = vec![in alloc; 0; problem.terms.len()]?;
    let _solves = problem.eval(numbers, values.as_mut_slice());
    Ok(values)
}

/// The value of the term at a position, and 0 where there is no such term.
pub fn value_at(values: &[u128], term: usize) -> u128
    ensures { result ≡ slice_index values.now term }
{
    match values.get(term) {
        Some(value) => *value,
        None => 0,
    }
}
