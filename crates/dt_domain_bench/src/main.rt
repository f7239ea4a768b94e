//! Measures what each call of the domains costs, on operands of 128 bits. With an argument it makes many
//! rounds and prints a line for each call on standard error: tenths of a nanosecond a call and for
//! making its operands alone, which the first figure has in it, each the best of several runs.
//! Without one it makes a few rounds and prints no figure.
//!
//! Proved: each call is made where its conditions hold, and the program ends.
//! Only tested: that it runs. The figures are the machine's.
#![tactic(auto)]

mod cases;
mod loops;
mod made;

ghost use Rattle.dt_domain_bench.specs.Case.{IsCase};

use crate::cases::{CASES, Case, case_at, name_of};
use crate::loops::{Call, calls};
use crate::made::Made;
use dt_bits::arity;
use dt_known::Known;
use dt_pair::Pair;
use dt_range::Range;
use std::time::Instant;
use std::{env, io};

/// How often each loop runs, how many calls it makes, and whether the figures are printed.
#[derive(Clone, Copy)]
struct Plan {
    runs: u32,
    rounds: u32,
    shown: bool,
}

/// Nanoseconds that the best run took, and the mixed answers.
fn best<D: Made>(rt: &HostRuntime, plan: Plan, call: Call, case: Case) -> io::Result<(u128, u128)>
    requires { IsCase case }
{
    let mut least = u128::MAX;
    let mut mixed = 0;
    for _ in 0..plan.runs {
        let start = Instant::now(rt)?;
        mixed = calls::<D>(call, case, plan.rounds);
        least = least.min(start.elapsed(rt)?.as_nanos());
    }
    Ok((least, mixed))
}

/// Measures a call against the making of its operands.
fn report<D: Made>(
    rt: &HostRuntime,
    plan: Plan,
    name: &str,
    call: Call,
    case: Case,
) -> io::Result<()>
    requires { IsCase case }
{
    let (made, operands) = best::<D>(rt, plan, Call::Nothing, case)?;
    let (taken, answers) = best::<D>(rt, plan, call, case)?;
    if plan.shown && plan.rounds > 0 {
        let with = taken.saturating_mul(10) / plan.rounds as u128;
        let without = made.saturating_mul(10) / plan.rounds as u128;
        eprintln!(rt; "{name} {call:?}: {with} {without} ({operands:x} {answers:x})")?;
    }
    Ok(())
}

/// Measures an operator forward, and backward at each place.
fn measure<D: Made>(rt: &HostRuntime, plan: Plan, index: u32) -> io::Result<()> {
    let case = case_at(index);
    let name = name_of(case.op);
    report::<D>(rt, plan, name, Call::Forward, case)?;
    for place in 0..arity(case.op) {
        report::<D>(rt, plan, name, Call::Backward { place }, case)?;
    }
    Ok(())
}

/// Measures every call of a domain.
fn measure_all<D: Made>(rt: &HostRuntime, plan: Plan, domain: &str) -> io::Result<()> {
    if plan.shown {
        eprintln!(rt; "{domain}")?;
    }
    for index in 0..CASES {
        measure::<D>(rt, plan, index)?;
    }
    let case = case_at(0);
    report::<D>(rt, plan, "Meet", Call::Meet, case)?;
    report::<D>(rt, plan, "Within", Call::Within, case)?;
    report::<D>(rt, plan, "WithBit", Call::WithBit, case)?;
    Ok(())
}

fn main(rt: HostRuntime) -> io::Result<()> {
    let shown = env::args(&rt)?.count() > 1;
    let plan = if shown {
        Plan {
            runs: 40,
            rounds: 200_000,
            shown,
        }
    } else {
        Plan {
            runs: 2,
            rounds: 100,
            shown,
        }
    };
    measure_all::<Known>(&rt, plan, "Known")?;
    measure_all::<Range>(&rt, plan, "Range")?;
    measure_all::<Pair>(&rt, plan, "Pair")?;
    println!(rt; "domains: every call ran")?;
    Ok(())
}
