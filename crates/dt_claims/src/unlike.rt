ghost use Rattle.std.specs.Prelude.{◌≡◌, ◌++◌, ◌∷◌, [], map, IfOk, OnOk};
ghost use Rattle.std.specs.List.{flat_map};
ghost use Rattle.dt_model.specs.ModelData.{data_of};
ghost use Rattle.dt_terms.specs.Terms.{term_at, bits_at};
ghost use Rattle.dt_build.specs.Building.{claimed};
ghost use Rattle.dt_table.specs.Links.{access_pages};
ghost use Rattle.dt_table.specs.Unlike.{upper_from, upper_of, upper_at, same_bits, are_two, unlikes, page_unlikes, link_unlikes, all_unlikes, unlike_form, unlike_forms};
ghost use Rattle.dt_claims.specs.Views.{sized, spot, access_of, rows_of};

use crate::links::access_pages;
use crate::outs::side_at;
use crate::places::Places;
use crate::sized::SizedOut;
use crate::spots::SpotOut;
use dt_bits::{NoMemory, Op, Width};
use dt_build::Builder;
use dt_model::Model;
use dt_request::{Link, Requests};
use dt_table::{Out, UnlikeWords, Upper};
use dt_terms::Term;
use std::alloc::Global;

// The term at a position; past the end a choice of one bit.
fn term_at(terms: &[Term], at: u32) -> Term
    ensures { result ≡ term_at terms.now at }
{
    match terms.get(at as usize) {
        Some(term) => *term,
        None => Term::Choice { width: Width(1) },
    }
}

// How many bits the value of the term at a position has.
fn bits_at(terms: &[Term], at: u32) -> u32
    ensures { result ≡ bits_at terms.now at }
{
    term_at(terms, at).width().0
}

// What a slice takes its bits from; its lowest bit is bit `from` of another term.
fn upper_from(from: u32, term: Term) -> Option<Upper>
    ensures { result ≡ upper_from from term }
{
    match term {
        Term::Node {
            op: Op::Slice { hi, lo },
            a,
            ..
        } => Some(Upper {
            from,
            word: a,
            hi,
            lo,
        }),
        _ => None,
    }
}

// What a term takes its upper bits from, where it is a slice, or one before other bits.
fn upper_of(terms: &[Term], term: Term) -> Option<Upper>
    ensures { result ≡ upper_of terms.now term }
{
    match term {
        Term::Node {
            op: Op::Concat,
            a,
            b,
            ..
        } => upper_from(bits_at(terms, b), term_at(terms, a)),
        _ => upper_from(0, term),
    }
}

fn upper_at(terms: &[Term], at: u32) -> Option<Upper>
    ensures { result ≡ upper_at terms.now at }
{
    upper_of(terms, term_at(terms, at))
}

// Whether both terms are, from bit `exponent` on, the same bits of their words.
fn same_bits(exponent: u32, x: Upper, y: Upper) -> bool
    ensures { result ≡ same_bits exponent x y }
{
    (x.from <= exponent && y.from <= exponent)
        && (x.hi == y.hi && x.lo as u64 + y.from as u64 == y.lo as u64 + x.from as u64)
}

// Whether these are two words of one width.
fn are_two(terms: &[Term], word: u32, other: u32) -> bool
    ensures { result ≡ are_two terms.now word other }
{
    bits_at(terms, word) == bits_at(terms, other) && word != other
}

// The words, where the blocks of two nodes are the same bits of them.
fn push_unlike(
    terms: &[Term],
    x: SizedOut,
    y: SizedOut,
    found: &mut Vec<UnlikeWords>,
) -> Result<(), NoMemory>
    ensures { OnOk result (found.new.items ≡ found.old.items ++ unlikes terms.now (sized x) (sized y)) }
{
    let Some(upper) = upper_at(terms, x.out.value) else {
        return Ok(());
    };
    let Some(other) = upper_at(terms, y.out.value) else {
        return Ok(());
    };
    let exponent = x.exponent.max(y.exponent);
    if !(same_bits(exponent, upper, other) && are_two(terms, upper.word, other.word)) {
        return Ok(());
    }
    found.push(UnlikeWords {
        word: upper.word,
        other: other.word,
        away: x.out.away,
        other_away: y.out.away,
    })?;
    Ok(())
}

// The same, of two results to which walks can come.
fn push_page(
    terms: &[Term],
    x: &SpotOut,
    y: &SpotOut,
    found: &mut Vec<UnlikeWords>,
) -> Result<(), NoMemory>
    ensures { OnOk result (found.new.items ≡ found.old.items ++ page_unlikes terms.now (spot x.now) (spot y.now)) }
{
    if !(x.live && y.live) {
        return Ok(());
    }
    push_unlike(terms, x.of, y.of, found)
}

// The page with each of the others.
fn push_page_with(
    terms: &[Term],
    page: &SpotOut,
    others: &[SpotOut],
    found: &mut Vec<UnlikeWords>,
) -> Result<(), NoMemory>
    ensures { OnOk result (found.new.items ≡ found.old.items ++ flat_map (page_unlikes terms.now (spot page.now)) (map spot others.now)) }
{
    for other in others {
        push_page(terms, page, other, found)?;
    }
    Ok(())
}

// Each page of one walk with each of another.
fn push_page_pairs(
    terms: &[Term],
    pages: &[SpotOut],
    others: &[SpotOut],
    found: &mut Vec<UnlikeWords>,
) -> Result<(), NoMemory>
    ensures { OnOk result (found.new.items ≡ found.old.items ++ flat_map (λ x. flat_map (page_unlikes terms.now x) (map spot others.now)) (map spot pages.now)) }
{
    for page in pages {
        push_page_with(terms, page, others, found)?;
    }
    Ok(())
}

// The results of two walks.
fn push_pages(
    alloc: Global,
    model: &Model,
    requests: &Requests,
    terms: &[Term],
    rows: &[Vec<Out>],
    a: u32,
    b: u32,
    found: &mut Vec<UnlikeWords>,
) -> Result<(), NoMemory>
    ensures { let d = data_of model.now in let r = requests.now in let outs = rows_of rows.now in
        OnOk result (found.new.items ≡ found.old.items ++ flat_map (λ x. flat_map (page_unlikes terms.now x) (access_pages d r outs b)) (access_pages d r outs a)) }
{
    let pages = access_pages(alloc, model, requests, rows, a)?;
    let others = access_pages(alloc, model, requests, rows, b)?;
    push_page_pairs(terms, pages.as_slice(), others.as_slice(), found)
}

// The words of the blocks that the link keeps apart.
fn push_link(
    alloc: Global,
    model: &Model,
    requests: &Requests,
    terms: &[Term],
    rows: &[Vec<Out>],
    link: Link,
    found: &mut Vec<UnlikeWords>,
) -> Result<(), NoMemory>
    ensures { OnOk result (found.new.items ≡ found.old.items ++ link_unlikes (data_of model.now) requests.now terms.now (rows_of rows.now) link) }
{
    match link {
        Link::ApartTable(a, b) => {
            let x = side_at(model, rows, a);
            push_unlike(terms, x, side_at(model, rows, b), found)
        }
        Link::ApartPage(a, b) => push_pages(alloc, model, requests, terms, rows, a, b, found),
        _ => Ok(()),
    }
}

/// The words that differ since blocks which are the same bits of them are apart, as the terms that
/// stand tell. It takes memory for each two results of two walks that a link keeps apart.
pub(crate) fn all_unlikes(
    alloc: Global,
    model: &Model,
    requests: &Requests,
    terms: &[Term],
    rows: &[Vec<Out>],
) -> Result<Vec<UnlikeWords>, NoMemory>
    ensures { IfOk result (λ v. v.items ≡ all_unlikes (data_of model.now) requests.now terms.now (rows_of rows.now)) }
{
    let mut found = Vec::new(alloc);
    let links = requests.links.as_slice();
    for link in links {
        push_link(alloc, model, requests, terms, rows, *link, &mut found)?;
    }
    Ok(found)
}

// Where the words are equal, the walks don't come to both nodes.
fn require_unlike(builder: &mut Builder, places: Places, words: UnlikeWords) -> Result<(), NoMemory>
    ensures { OnOk result (builder.new ≡ claimed builder.old (unlike_form (access_of places) words ∷ [])) }
{
    let same = builder.same(words.word, words.other)?;
    let away = builder.fold(Op::Or, words.away, words.other_away, 0)?;
    let whole = builder.fold(Op::Ite, same, away, places.one)?;
    builder.require(whole)
}

/// Requires that words differ.
pub(crate) fn require_unlikes(
    builder: &mut Builder,
    places: Places,
    found: &[UnlikeWords],
) -> Result<(), NoMemory>
    ensures { OnOk result (builder.new ≡ claimed builder.old (unlike_forms (access_of places) found.now)) }
{
    for words in found {
        require_unlike(builder, places, *words)?;
    }
    Ok(())
}
