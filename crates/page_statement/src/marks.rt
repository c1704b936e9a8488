//! Why marks are not certified, in words.
ghost use Rattle.std.specs.Prelude.{◌≡◌, IfOk, pos, string_bytes, unwrap_or};
ghost use Rattle.rules_books.specs.Books.{sheet_tables};
ghost use Rattle.certificate_pairing.specs.Pairing.{at, mark, worth};
ghost use Rattle.certificate_fairness.specs.Search.{legs_in};
ghost use Rattle.page_wording.specs.Names.{article_of};
ghost use Rattle.page_money.specs.Amounts.{dollars_amount};
ghost use Rattle.certificate_certify.specs.Totals.{claim_requirement};
ghost use Rattle.page_statement.specs.Claims.{article_words};
ghost use Rattle.page_statement.specs.Rules.{rules_on};
ghost use Rattle.page_statement.specs.Marks.{limit_words, not_one_each, beyond_limit, above_alone, one_set, above_set, breach_words, refusal_words};
ghost use Rattle.certificate_pairing.specs.Dockets.{docket_by};

use crate::claims::{article_words, legs_text};
use calls_docket::Docket;
use certificate_certify::CertifyFault;
use certificate_fairness::{Breach, Legs, worth};
use certificate_pairing::{Claim, at, mark};
use page_money::Dollars;
use page_wording::names::article_of;
use rules_books::{Book, Sheet};
use rules_positions::Kind;
use std::alloc::{AllocError, Global};

/// The limit of a position's mark.
fn limit_words(kind: Kind) -> &'static str
    ensures { result.now ≡ limit_words kind }
{
    match kind {
        Kind::Units => "a mark of units is within 50,000.00 of 0",
        Kind::Call | Kind::Put | Kind::Futures | Kind::Receipt =>
            "a mark of contracts is within 50,000,000.00 of 0",
    }
}

/// Marks that are not one each.
#[tactic(auto, unfolding(crate::specs::Marks::not_one_each))]
fn not_one_each(heap: Global, given: usize, held: usize) -> Result<String, AllocError>
    ensures { IfOk result (λ t. string_bytes t ≡ not_one_each given held) }
{
    format!(in heap;
        "  Wrong: {given} marks are given for {held} positions.\n  Right: there is one mark for each position.\n"
    )
}

/// The mark of a position.
fn mark_of(marks: &[i64], position: u64) -> Dollars
    ensures { dollars_amount result ≡ mark marks.now position }
{
    Dollars::from(i128::from(mark(marks, position)))
}

/// What one unit or contract of a position requires alone.
fn alone_of(docket: &Docket<Sheet>, position: u64) -> Dollars
    ensures { dollars_amount result
        ≡ pos ((sheet_tables docket.now.book).alone docket.now.size
        (at docket.now.tally.held position)) }
{
    let record = at(docket.positions(), position);
    Dollars::from(docket.book().alone(docket.size(), &record))
}

/// The limit of a position's mark.
fn limit_of(docket: &Docket<Sheet>, position: u64) -> &'static str
    ensures { result.now ≡ limit_words (at docket.now.tally.held position).kind }
{
    limit_words(at(docket.positions(), position).kind)
}

/// A mark beyond its limit.
#[tactic(auto, unfolding(crate::specs::Marks::beyond_limit))]
fn beyond_limit(
    heap: Global,
    docket: &Docket<Sheet>,
    marks: &[i64],
    position: usize,
) -> Result<String, AllocError>
    ensures { IfOk result (λ t. string_bytes t
        ≡ beyond_limit docket.now.tally.held marks.now position) }
{
    // A `usize` has 64 bits here, so the casts lose nothing.
    let mark = mark_of(marks, position as u64);
    let limit = limit_of(docket, position as u64);
    format!(in heap; "  Wrong: the mark of position {position} is {mark}.\n  Right: {limit}.\n")
}

/// A mark above its position's requirement alone.
#[tactic(auto, unfolding(crate::specs::Marks::above_alone))]
fn above_alone(
    heap: Global,
    docket: &Docket<Sheet>,
    marks: &[i64],
    position: u8,
) -> Result<String, AllocError>
    ensures { IfOk result (λ t. string_bytes t
        ≡ above_alone (docket_by sheet_tables docket.now) marks.now position) }
{
    let number = u64::from(position);
    let mark = mark_of(marks, number);
    let alone = alone_of(docket, number);
    format!(in heap;
        "  Wrong: the mark of position {position} is {mark}, and one of it requires {alone} alone.\n  Right: a mark is at most what one unit or contract of its position requires alone.\n"
    )
}

/// One set under an article.
fn one_set(article: u8, legs: &Legs) -> Claim
    ensures { result ≡ one_set article legs.now }
{
    Claim {
        article: u64::from(article),
        first: u64::from(legs.first),
        second: u64::from(legs.second),
        third: u64::from(legs.third.unwrap_or(0)),
        sets: 1,
    }
}

/// The marks of what a set takes.
fn worth_of(docket: &Docket<Sheet>, marks: &[i64], legs: &Legs) -> Dollars
    ensures { dollars_amount result
        ≡ worth docket.now.size docket.now.tally.held marks.now (legs_in legs.now) }
{
    Dollars::from(worth(docket.size(), docket.positions(), marks, *legs))
}

/// The name of an article of the book.
fn name_of(docket: &Docket<Sheet>, article: u8) -> &'static str
    ensures { result.now ≡ article_words (article_of docket.now.book article) }
{
    article_words(article_of(docket.book(), u64::from(article)))
}

/// What a set of a claim requires.
fn required_of(docket: &Docket<Sheet>, claim: &Claim) -> Dollars
    ensures { dollars_amount result
        ≡ pos (unwrap_or (claim_requirement (docket_by sheet_tables docket.now) claim.now) 0) }
{
    Dollars::from(docket.account().claim_requirement(claim).unwrap_or(0))
}

/// The marks of an allowed set above its requirement.
#[tactic(auto, unfolding(crate::specs::Marks::above_set))]
fn above_set(
    heap: Global,
    docket: &Docket<Sheet>,
    marks: &[i64],
    article: u8,
    legs: &Legs,
) -> Result<String, AllocError>
    ensures { IfOk result (λ t. string_bytes t
        ≡ above_set (docket_by rules_on docket.now) marks.now article legs.now) }
{
    let claim = one_set(article, legs);
    let name = name_of(docket, article);
    let positions = legs_text(heap, &claim)?;
    let worth = worth_of(docket, marks, legs);
    let required = required_of(docket, &claim);
    format!(in heap;
        "  Wrong: the marks of article {article} ({name}) with the legs {positions} come to\n         {worth}, and a set requires {required}.\n  Right: the marks of what a set takes are at most what the set requires.\n"
    )
}

/// A breach of fairness.
fn breach_words(
    heap: Global,
    docket: &Docket<Sheet>,
    marks: &[i64],
    breach: Breach,
) -> Result<String, AllocError>
    ensures { IfOk result (λ t. string_bytes t
        ≡ breach_words (docket_by rules_on docket.now) marks.now breach) }
{
    match breach {
        Breach::Alone { position } => above_alone(heap, docket, marks, position),
        Breach::Set { article, legs } => above_set(heap, docket, marks, article, &legs),
    }
}

/// Why the marks are refused.
pub(crate) fn refusal_words(
    heap: Global,
    docket: &Docket<Sheet>,
    marks: &[i64],
    fault: CertifyFault,
) -> Result<String, AllocError>
    ensures { IfOk result (λ t. string_bytes t
        ≡ refusal_words (docket_by rules_on docket.now) marks.now fault) }
{
    match fault {
        CertifyFault::NotOneEach { given, held } => not_one_each(heap, given, held),
        CertifyFault::BeyondLimit(position) => beyond_limit(heap, docket, marks, position),
        CertifyFault::Unfair(breach) => breach_words(heap, docket, marks, breach),
    }
}
