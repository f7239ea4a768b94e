ghost use Rattle.std.specs.Prelude.{◌≡◌, true, IfOk, IfSome};
ghost use Rattle.dt_log.specs.Shapes.{is_tree};
ghost use Rattle.dt_solve.specs.Outcomes.{IsAnswer, IsEnded, FindsAim, FollowsAim};
ghost use Rattle.dt_solve.specs.Roots.{IsRoot};

use crate::early::found_early;
use crate::guiding::Rule;
use crate::outcome::Outcome;
use crate::proposer::Proposer;
use crate::root::{Root, is_refuted, root_again, settled_root};
use crate::tried::Tried;
use crate::turning::{Search, Turned, begin, turn};
use crate::writing::without_tries;
use dt_bits::NoMemory;
use dt_box::Cells;
use dt_domain::Deciding;
use dt_log::{Claim, Draft, Log};
use dt_terms::Problem;
use std::alloc::Global;

// How many splits the first attempts may make, and by how much later ones may make more.
const FIRST_REACH: u64 = 400;

const RISE: u64 = 8;

// The rules by which attempts split, in turn.
const RULES: [Rule; 4] = [
    Rule::Last,
    Rule::BlamedLast,
    Rule::Fewest,
    Rule::BlamedFewest,
];

// The log of a draft that is a tree.
fn log_of(draft: Draft, claim: Claim) -> Log
    requires { is_tree draft.lines ≡ true }
    ensures claim { result.claim ≡ claim }
    ensures lines { result.lines ≡ draft.lines }
{
    match draft.finish(claim) {
        Some(log) => log,
        None => unreachable!(),
    }
}

// One search from this root, in which bits are split by this rule.
fn attempt<D: Deciding, P: Proposer<D>>(
    alloc: Global,
    problem: &Problem,
    root: Root<D>,
    limit: u64,
    rule: Rule,
    proposer: &mut P,
) -> Result<Outcome, NoMemory>
    requires root { IsRoot D.ops problem.now root.cells root.draft.lines root.end }
    ensures answer { IfOk result (λ outcome. IsAnswer D.ops problem.now limit outcome) }
    ensures finds { IfOk result (λ outcome. FindsAim problem.now (P.aim proposer.old) outcome) }
    ensures follows { IfOk result (λ outcome. FollowsAim D.ops problem.now (P.aim proposer.old) outcome) }
    ensures aim { P.aim proposer.new ≡ P.aim proposer.old }
{
    let _ = &problem.terms;
    let mut tried = Tried::new(alloc, problem)?;
    let mut search: Search<D> = begin(alloc, problem, root, rule)?;
    loop {
        match turn(alloc, problem, limit, proposer, &mut search, &mut tried)? {
            Turned::More => {}
            Turned::Found => return Ok(Outcome::Found(tried.numbers)),
            Turned::Refuted => {
                let bare = without_tries(alloc, &search.draft)?;
                return Ok(Outcome::Refuted(log_of(bare, Claim::Impossible)));
            }
            Turned::Spent => {
                return Ok(Outcome::Spent(log_of(search.draft, Claim::Budget(limit))));
            }
        }
    }
}

// One search from this root; None where it ended at the limit.
fn ended_attempt<D: Deciding, P: Proposer<D>>(
    alloc: Global,
    problem: &Problem,
    root: Root<D>,
    limit: u64,
    rule: Rule,
    proposer: &mut P,
) -> Result<Option<Outcome>, NoMemory>
    requires root { IsRoot D.ops problem.now root.cells root.draft.lines root.end }
    ensures answer { IfOk result (λ ended. IfSome ended (IsEnded D.ops problem.now)) }
    ensures finds { IfOk result (λ ended. IfSome ended (FindsAim problem.now (P.aim proposer.old))) }
    ensures aim { P.aim proposer.new ≡ P.aim proposer.old }
{
    match attempt(alloc, problem, root, limit, rule, proposer)? {
        Outcome::Found(numbers) => Ok(Some(Outcome::Found(numbers))),
        Outcome::Refuted(log) => Ok(Some(Outcome::Refuted(log))),
        Outcome::Spent(_record) => Ok(None),
    }
}

// A search by each rule in turn, but for the first few that were tried, until one finds or refutes;
// None where each ended at the limit.
fn attempts<D: Deciding, P: Proposer<D>>(
    alloc: Global,
    problem: &Problem,
    root: &Root<D>,
    tried: usize,
    limit: u64,
    proposer: &mut P,
) -> Result<Option<Outcome>, NoMemory>
    requires root { IsRoot D.ops problem.now root.now.cells root.now.draft.lines root.now.end }
    ensures answer { IfOk result (λ ended. IfSome ended (IsEnded D.ops problem.now)) }
    ensures finds { IfOk result (λ ended. IfSome ended (FindsAim problem.now (P.aim proposer.old))) }
    ensures aim { P.aim proposer.new ≡ P.aim proposer.old }
{
    for rule in RULES.into_iter().skip(tried) {
        let again = root_again(alloc, root)?;
        if let Some(outcome) = ended_attempt(alloc, problem, again, limit, rule, proposer)? {
            return Ok(Some(outcome));
        }
    }
    Ok(None)
}

// The searches after the first one, which ended at its limit. Each begins from a copy of the root,
// which is settled anew for them.
fn search_on<D: Deciding, P: Proposer<D>>(
    alloc: Global,
    problem: &Problem,
    limit: u64,
    proposer: &mut P,
) -> Result<Outcome, NoMemory>
    ensures answer { IfOk result (λ outcome. IsAnswer D.ops problem.now limit outcome) }
    ensures finds { IfOk result (λ outcome. FindsAim problem.now (P.aim proposer.old) outcome) }
    ensures follows { IfOk result (λ outcome. FollowsAim D.ops problem.now (P.aim proposer.old) outcome) }
    ensures aim { P.aim proposer.new ≡ P.aim proposer.old }
{
    let cells: Cells<D> = Cells::root(alloc, problem)?;
    let root: Root<D> = settled_root(alloc, problem, cells)?;
    let mut reach = FIRST_REACH;
    let mut tried = 1;
    while reach < limit {
        if let Some(outcome) = attempts(alloc, problem, &root, tried, reach, proposer)? {
            return Ok(outcome);
        }
        reach = reach.saturating_mul(RISE);
        tried = 0;
    }
    attempt(alloc, problem, root, limit, Rule::BlamedLast, proposer)
}

/// Searches for an assignment that solves the problem, with at most this many splits. First the
/// proposer's numbers are tried at the root cells as they are; where they solve, nothing is settled.
/// Else, at settled cells, the proposer's numbers are tried; where they fail, a bit of a choice is
/// split, and both halves are searched, the one with the bit 0 first. The answer is an assignment that
/// solves the problem; or a log that refutes it; or a record of exactly `limit` splits, at each of which
/// a trial failed. The record doesn't come where `limit` is `2^C - 1` or more, `C` being the number of
/// bits of all choices.
///
/// The root is settled once for the first search, and once for all later ones. Which bit is split is
/// free. First there are searches with fewer splits, each by another rule; only where these find and
/// refute nothing, the one whose record is answered comes.
///
/// An aim that the proposer tells and that solves the problem is found, whatever the limit. The
/// proposer keeps its aim.
pub fn search<D: Deciding, P: Proposer<D>>(
    alloc: Global,
    problem: &Problem,
    limit: u64,
    proposer: &mut P,
) -> Result<Outcome, NoMemory>
    ensures answer { IfOk result (λ outcome. IsAnswer D.ops problem.now limit outcome) }
    ensures finds { IfOk result (λ outcome. FindsAim problem.now (P.aim proposer.old) outcome) }
    ensures follows { IfOk result (λ outcome. FollowsAim D.ops problem.now (P.aim proposer.old) outcome) }
    ensures aim { P.aim proposer.new ≡ P.aim proposer.old }
{
    let cells: Cells<D> = Cells::root(alloc, problem)?;
    if let Some(numbers) = found_early(alloc, problem, &cells, proposer)? {
        return Ok(Outcome::Found(numbers));
    }
    let root: Root<D> = settled_root(alloc, problem, cells)?;
    if limit <= FIRST_REACH || is_refuted(&root) {
        return attempt(alloc, problem, root, limit, Rule::BlamedLast, proposer);
    }
    if let Some(outcome) = ended_attempt(alloc, problem, root, FIRST_REACH, RULES[0], proposer)? {
        return Ok(outcome);
    }
    search_on(alloc, problem, limit, proposer)
}
