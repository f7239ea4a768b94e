ghost use Rattle.std.specs.Prelude.{◌≡◌, ◌↔◌, ◌<◌, ◌^◌, ℕ, List, length, true, IfOk, OnOk};
ghost use Rattle.dt_terms.specs.Values.{IsAssignment, solves};
ghost use Rattle.dt_check.specs.Reading.{end_verdict, verdict_of};
ghost use Rattle.dt_check.specs.Checking.{tries_after};
ghost use Rattle.dt_check.specs.Laws.{Refutation, Record};
ghost use Rattle.dt_check.specs.declared.verdict.Verdict.TheVariants.{Closed, Unfinished};

use crate::checker::{Checker, Finding};
use crate::trial::Trial;
use crate::{Cause, Verdict};
use dt_bits::NoMemory;
use dt_domain::Domain;
use dt_log::{Claim, Line, Log};
use dt_terms::Problem;
use std::alloc::Global;

// The verdict after the last item, which is item number `items`.
fn end_verdict(claim: Claim, items: u32, splits: u64, opened: bool) -> Verdict
    ensures { result ≡ end_verdict claim items splits opened }
{
    match claim {
        Claim::Impossible => Verdict::Closed(splits),
        Claim::Budget(limit) => if opened && splits == limit {
            Verdict::Unfinished(limit)
        } else {
            Verdict::Refused {
                item: items,
                cause: Cause::WrongClaim,
            }
        },
    }
}

// Keeps the pair of a Try item; any other item ends the Try items before it.
fn note_try(tries: &mut Vec<(u32, u128)>, line: Line) -> Result<(), NoMemory>
    ensures { OnOk result (tries.new.items ≡ tries_after line tries.old.items) }
{
    match line {
        Line::Try { choice, value } => tries.push((choice, value))?,
        _ => tries.clear(),
    }
    Ok(())
}

// The verdict on a log, item by item.
fn read_items<D: Domain>(alloc: Global, problem: &Problem, log: &Log) -> Result<Verdict, NoMemory>
    requires { length log.now.lines < 2 ^ 32 }
    ensures { IfOk result (λ v. v ≡ verdict_of D.ops problem.now log.now.claim log.now.lines) }
{
    let mut checker: Checker<D> = Checker::new(alloc, problem)?;
    let mut trial = Trial::new(alloc, problem)?;
    let mut tries = Vec::new(alloc);
    for at in 0..log.lines.len() {
        let line = log.lines.at(at);
        match checker.read_line(problem, &mut trial, log.claim, &tries, line)? {
            Finding::Passed => {}
            Finding::Ended => {
                return Ok(end_verdict(
                    log.claim,
                    at as u32 + 1,
                    checker.splits(),
                    checker.is_opened(),
                ));
            }
            Finding::Refused(cause) => {
                return Ok(Verdict::Refused {
                    item: at as u32 + 1,
                    cause,
                });
            }
        }
        note_try(&mut tries, line)?;
    }
    unreachable!()
}

/// Checks a log, which has fewer than 2^32 items. `Closed` comes exactly where it refutes the
/// problem, `Unfinished` exactly where it is a record with as many splits as it claims; else the
/// first item with a cause is refused, with the first of its causes. Where the log refutes the
/// problem, no assignment solves it, whatever the domain.
///
/// A step costs one call of the domain, and going back costs as much as the changes that it undoes.
pub fn check_log<D: Domain>(
    alloc: Global,
    problem: &Problem,
    log: &Log,
) -> Result<Verdict, NoMemory>
    requires { length log.now.lines < 2 ^ 32 }
    ensures verdict { IfOk result (λ v. v ≡ verdict_of D.ops problem.now log.now.claim log.now.lines) }
    ensures closed { IfOk result (λ v. (s : ℕ) → (v ≡ Closed s) ↔ Refutation D.ops problem.now log.now.claim log.now.lines s) }
    ensures unfinished { IfOk result (λ v. (n : ℕ) → (v ≡ Unfinished n) ↔ Record D.ops problem.now log.now.claim log.now.lines n) }
    ensures sound { IfOk result (λ v. (s : ℕ) → v ≡ Closed s → (numbers : List ℕ) → IsAssignment problem.now.terms numbers → solves problem.now numbers ≡ true → ⊥) }
{
    let _ = &problem.terms;
    match read_items::<D>(alloc, problem, log) {
        Ok(verdict) => Ok(verdict),
        Err(NoMemory) => Err(NoMemory),
    }
}
