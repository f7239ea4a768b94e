ghost use Rattle.std.specs.Prelude.{◌≡◌, ◌<◌, ◌++◌, ◌∷◌, [], false, All, ℕ, List, Option, length, reverse, IfOk, IfSome, OnOk};
ghost use Rattle.dt_terms.specs.Terms.{choices_of};
ghost use Rattle.dt_box.specs.Cells.{AreCells};
ghost use Rattle.dt_box.specs.Steps.{after_bit};
ghost use Rattle.dt_box.specs.Stillness.{IsSettled};
ghost use Rattle.dt_box.specs.Trails.{IsKept};
ghost use Rattle.dt_box.specs.Unknown.{IsUnknownBit};
ghost use Rattle.dt_box.specs.Watching.{watches_of};
ghost use Rattle.dt_log.specs.declared.line.Line.TheVariants.{Split, Close};
ghost use Rattle.dt_check.specs.declared.pending.Pending.{Pending};
ghost use Rattle.dt_check.specs.Waiting.{Stacked, CanBegin, AtSplits, IsNext, IsBegun};
ghost use Rattle.dt_check.specs.Trying.{IsTrial};
ghost use Rattle.dt_check.specs.Sound.{IsEmptyAt};
ghost use Rattle.dt_propagate.specs.Settling.{IsProgress, IsEnd};
ghost use Rattle.dt_solve.specs.Roots.{IsRoot};
ghost use Rattle.dt_solve.specs.Searching.{IsStart, IsSearching, IsAt, IsTurned, changed_term};

use crate::choosing::{ChoiceBit, bit_to_split};
use crate::guiding::{Guide, Rule};
use crate::proposer::Proposer;
use crate::root::Root;
use crate::tried::Tried;
use crate::writing::{write_rest, write_tries};
use dt_bits::NoMemory;
use dt_box::{Cells, Trail, Watches};
use dt_check::{Pending, Trial, next_tree};
use dt_domain::{Deciding, Domain};
use dt_log::{Draft, Line};
use dt_propagate::{Settled, settle_from};
use dt_terms::Problem;
use std::alloc::Global;

// What is known of the cells where a turn begins.
#[derive(Clone, Copy, Debug, PartialEq, Eq)]
pub(crate) enum Start {
    // Settling ended so.
    Ended(Settled),
    // They were settled before the cell of this term changed.
    Changed(u32),
}

// What a turn of the search leads to.
#[derive(Clone, Copy, Debug, PartialEq, Eq)]
pub(crate) enum Turned {
    // Another tree is begun.
    More,
    // The numbers solve the problem.
    Found,
    // The draft is a refutation.
    Refuted,
    // The draft is the record of a search that ended at its limit.
    Spent,
}

// Where a search stands: the cells of the tree that is begun, what they were before, the splits whose
// right trees wait, the latest last, what was written, how many splits there were, what is known of
// the cells, what is kept between trials, and what says where to split.
#[derive(Drop)]
pub(crate) struct Search<D: Domain> {
    pub(crate) cells: Cells<D>,
    pub(crate) trail: Trail<D>,
    pub(crate) pending: Vec<Pending>,
    pub(crate) draft: Draft,
    pub(crate) splits: u64,
    pub(crate) start: Start,
    pub(crate) trial: Trial,
    pub(crate) guide: Guide,
}

// A search before its first turn, from settled root cells.
pub(crate) fn begin<D: Deciding>(
    alloc: Global,
    problem: &Problem,
    root: Root<D>,
    rule: Rule,
) -> Result<Search<D>, NoMemory>
    requires root { IsRoot D.ops problem.now root.cells root.draft.lines root.end }
    ensures { IfOk result (λ search. (limit : ℕ) → (aim : Option (List ℕ)) → IsAt D.ops problem.now limit aim search) }
{
    let _ = &problem.terms;
    let Root { cells, draft, end } = root;
    let trail = Trail::new(alloc)?;
    let pending = Vec::new(alloc);
    let trial = Trial::new(alloc, problem)?;
    Ok(Search {
        cells,
        trail,
        pending,
        draft,
        splits: 0,
        start: Start::Ended(end),
        trial,
        guide: Guide::new(alloc, rule),
    })
}

// The term whose cell changed, where one did.
fn changed_term(start: Start) -> Option<u32>
    ensures { result ≡ changed_term start }
{
    match start {
        Start::Ended(_) => None,
        Start::Changed(term) => Some(term),
    }
}

// Settles the cells, of which one may be empty.
fn settle_start<D: Deciding>(
    alloc: Global,
    problem: &Problem,
    watches: &Watches,
    start: Start,
    cells: &mut Cells<D>,
    trail: &mut Trail<D>,
    draft: &mut Draft,
) -> Result<Settled, NoMemory>
    requires cells { AreCells D.ops problem.now.terms cells.old }
    requires watches { watches.now ≡ watches_of problem.now.terms }
    requires start { IsStart D.ops problem.now.terms start cells.old }
    ensures progress { IsProgress D.ops problem.now.terms cells.old trail.old draft.old.lines cells.new trail.new draft.new.lines }
    ensures end { IfOk result (λ end. IsEnd D.ops problem.now.terms end cells.new (IsSettled D.ops problem.now.terms cells.new)) }
{
    match start {
        Start::Ended(end) => Ok(end),
        Start::Changed(term) => {
            if cells.get(term).is_empty() {
                return Ok(Settled::Empty(term));
            }
            settle_from(alloc, problem, watches, cells, trail, draft, &[term])
        }
    }
}

// Closes the tree at the empty cell of a term, and begins the tree that waited first, if any did.
fn close_tree<D: Domain>(
    problem: &Problem,
    cells: &mut Cells<D>,
    trail: &mut Trail<D>,
    pending: &mut Vec<Pending>,
    draft: &mut Draft,
    trial: &mut Trial,
    term: u32,
) -> Result<Option<Pending>, NoMemory>
    requires trial { IsTrial D.ops problem.now.terms cells.old trail.old trial.old }
    requires cells { AreCells D.ops problem.now.terms cells.old }
    requires within { All (λ change. change.0 < length cells.old) trail.old }
    requires stacked { Stacked (length trail.old) (reverse pending.old.items) }
    requires begin { AtSplits (CanBegin D.ops problem.now.terms) cells.old trail.old (reverse pending.old.items) }
    ensures lines { OnOk result (draft.new.lines ≡ draft.old.lines ++ Close term ∷ []) }
    ensures trial { OnOk result (IsTrial D.ops problem.now.terms cells.new trail.new trial.new) }
    ensures are { OnOk result (AreCells D.ops problem.now.terms cells.new) }
    ensures next { IfOk result (λ begun. IsNext D.ops cells.old trail.old (reverse pending.old.items) cells.new trail.new (reverse pending.new.items) begun) }
    ensures begun { IfOk result (λ begun. IfSome begun (λ q. IsBegun D.ops cells.old trail.old (reverse pending.old.items) cells.new trail.new (reverse pending.new.items) q)) }
{
    draft.push(Line::Close { term })?;
    next_tree(problem, cells, trail, pending, trial)
}

// Splits on a bit of a choice: the tree with the bit 0 is begun, the one with the bit 1 waits.
fn split_tree<D: Domain>(
    problem: &Problem,
    cells: &mut Cells<D>,
    trail: &mut Trail<D>,
    pending: &mut Vec<Pending>,
    draft: &mut Draft,
    split: ChoiceBit,
) -> Result<(), NoMemory>
    requires cells { AreCells D.ops problem.now.terms cells.old }
    requires unknown { IsUnknownBit D.ops problem.now.terms cells.old split.term split.bit }
    ensures lines { OnOk result (draft.new.lines ≡ draft.old.lines ++ Split split.term split.bit ∷ []) }
    ensures pending { OnOk result (let q : Pending = record { length = length trail.old; term = split.term; bit = split.bit } in pending.new.items ≡ pending.old.items ++ q ∷ []) }
    ensures cells { OnOk result (cells.new ≡ after_bit D.ops split.term split.bit false cells.old) }
    ensures kept { OnOk result (IsKept cells.old trail.old cells.new trail.new) }
{
    draft.push(Line::Split {
        term: split.term,
        bit: split.bit,
    })?;
    pending.push(Pending {
        length: trail.len(),
        term: split.term,
        bit: split.bit,
    })?;
    cells.set_bit_kept(problem, split.term, split.bit, false, trail)?;
    Ok(())
}

// At settled cells numbers are tried, and where they fail, a bit is split, unless the limit is reached.
fn try_or_split<D: Deciding, P: Proposer<D>>(
    problem: &Problem,
    limit: u64,
    proposer: &mut P,
    search: &mut Search<D>,
    tried: &mut Tried,
) -> Result<Turned, NoMemory>
    requires numbers { length tried.old.numbers.items ≡ length (choices_of problem.now.terms) }
    requires searching { IsSearching D.ops problem.now limit (P.aim proposer.old) search.old.cells search.old.trail search.old.pending.items search.old.draft.lines search.old.splits }
    requires settled { IsSettled D.ops problem.now.terms search.old.cells }
    requires trial { IsTrial D.ops problem.now.terms search.old.cells search.old.trail search.old.trial }
    ensures turned { IfOk result (λ turned. IsTurned D.ops problem.now limit (P.aim proposer.old) search.old turned search.new tried.new.numbers.items) }
    ensures numbers { OnOk result (length tried.new.numbers.items ≡ length (choices_of problem.now.terms)) }
    ensures aim { P.aim proposer.new ≡ P.aim proposer.old }
{
    let _ = &problem.terms;
    let solves = tried.try_numbers(
        problem,
        &search.cells,
        &search.trail,
        &mut search.trial,
        proposer,
    )?;
    if solves {
        return Ok(Turned::Found);
    }
    write_tries(&tried.pairs, &mut search.draft)?;
    if search.splits == limit {
        write_rest(&mut search.draft, search.pending.len())?;
        return Ok(Turned::Spent);
    }
    let values = search.trial.values();
    let hint = search.guide.hint(problem, &search.cells, values)?;
    let split = bit_to_split(problem, &search.cells, hint);
    split_tree(
        problem,
        &mut search.cells,
        &mut search.trail,
        &mut search.pending,
        &mut search.draft,
        split,
    )?;
    search.splits += 1;
    search.start = Start::Changed(split.term);
    Ok(Turned::More)
}

// Closes the tree at the empty cell of a term, and goes on with the tree that waited first; where none
// did, the draft is a refutation.
fn turn_back<D: Deciding>(
    problem: &Problem,
    search: &mut Search<D>,
    term: u32,
) -> Result<Turned, NoMemory>
    requires cells { AreCells D.ops problem.now.terms search.old.cells }
    requires within { All (λ change. change.0 < length search.old.cells) search.old.trail }
    requires stacked { Stacked (length search.old.trail) (reverse search.old.pending.items) }
    requires begin { AtSplits (CanBegin D.ops problem.now.terms) search.old.cells search.old.trail (reverse search.old.pending.items) }
    requires trial { IsTrial D.ops problem.now.terms search.old.cells search.old.trail search.old.trial }
    requires empty { IsEmptyAt D.ops problem.now.terms search.old.cells term }
    ensures { IfOk result (λ turned. (limit : ℕ) → (aim : Option (List ℕ)) → (numbers : List ℕ) → IsSearching D.ops problem.now limit aim search.old.cells search.old.trail search.old.pending.items search.old.draft.lines search.old.splits → IsTurned D.ops problem.now limit aim search.old turned search.new numbers) }
{
    let _ = &problem.terms;
    match close_tree(
        problem,
        &mut search.cells,
        &mut search.trail,
        &mut search.pending,
        &mut search.draft,
        &mut search.trial,
        term,
    )? {
        None => Ok(Turned::Refuted),
        Some(split) => {
            search.guide.blame(changed_term(search.start));
            search.start = Start::Changed(split.term);
            Ok(Turned::More)
        }
    }
}

// A turn: the cells are settled; where one is empty, the tree is closed and the next one begun; else
// numbers are tried, and where they fail, a bit is split, unless the limit is reached.
pub(crate) fn turn<D: Deciding, P: Proposer<D>>(
    alloc: Global,
    problem: &Problem,
    limit: u64,
    proposer: &mut P,
    search: &mut Search<D>,
    tried: &mut Tried,
) -> Result<Turned, NoMemory>
    requires numbers { length tried.old.numbers.items ≡ length (choices_of problem.now.terms) }
    requires at { IsAt D.ops problem.now limit (P.aim proposer.old) search.old }
    ensures turned { IfOk result (λ turned. IsTurned D.ops problem.now limit (P.aim proposer.old) search.old turned search.new tried.new.numbers.items) }
    ensures numbers { OnOk result (length tried.new.numbers.items ≡ length (choices_of problem.now.terms)) }
    ensures aim { P.aim proposer.new ≡ P.aim proposer.old }
{
    let _ = &problem.terms;
    match settle_start(
        alloc,
        problem,
        search.trial.watches(),
        search.start,
        &mut search.cells,
        &mut search.trail,
        &mut search.draft,
    )? {
        Settled::Empty(term) => turn_back(problem, search, term),
        Settled::Quiet => try_or_split(problem, limit, proposer, search, tried),
    }
}
