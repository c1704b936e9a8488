//! The claims standing: the rule that each set falls under, and what each claim requires.
ghost use Rattle.std.specs.Prelude.{◌≡◌, IfOk, string_bytes};
ghost use Rattle.page_wording.specs.Names.{article_of};
ghost use Rattle.page_statement.specs.Columns.{rows_text};
ghost use Rattle.page_statement.specs.Rules.{rules_on};
ghost use Rattle.page_statement.specs.Claims.{legs_text, article_words, term_or_dash, term_under, set_text, claim_row, amount_columns, amount_row, claims_table, claims_section};
ghost use Rattle.certificate_pairing.specs.Dockets.{docket_by};

use crate::columns::{amount, dash, left, number};
use crate::terms::term_words;
use calls_docket::Docket;
use certificate_pairing::Claim;
use page_figures::{ClaimFigures, claim_figures, claim_term};
use page_money::Dollars;
use page_wording::names::{article_name, article_of};
use page_workings::TermAmount;
use rules_articles::Article;
use rules_books::Sheet;
use std::alloc::{AllocError, Global};

/// The legs by the numbers of their positions.
#[tactic(auto, unfolding(crate::specs::Claims::legs_text))]
pub(crate) fn legs_text(heap: Global, claim: &Claim) -> Result<String, AllocError>
    ensures { IfOk result (λ t. string_bytes t ≡ legs_text claim.now) }
{
    if claim.third == 0 {
        return format!(in heap; "{}, {}", claim.first, claim.second);
    }
    format!(in heap; "{}, {}, {}", claim.first, claim.second, claim.third)
}

/// The name of an article, or a dash.
pub(crate) fn article_words(article: Option<Article>) -> &'static str
    ensures { result.now ≡ article_words article }
{
    match article {
        Some(article) => article_name(article),
        None => "-",
    }
}

/// A term under an article, or a dash.
fn term_or_dash(article: Article, term: Option<TermAmount>) -> &'static str
    ensures { result.now ≡ term_or_dash article term }
{
    match term {
        Some(x) => term_words(article, x.term),
        None => "-",
    }
}

/// The term that gives the requirement of a set under an article, or a dash.
fn term_under(docket: &Docket<Sheet>, claim: &Claim, article: Option<Article>) -> &'static str
    ensures { result.now ≡ term_under (docket_by rules_on docket.now) claim.now article }
{
    match article {
        Some(article) => term_or_dash(article, claim_term(docket, article, claim)),
        None => "-",
    }
}

/// What a set requires, or a dash.
fn set_column(heap: Global, figures: Option<ClaimFigures>) -> Result<String, AllocError>
    ensures { IfOk result (λ t. string_bytes t ≡ set_text figures) }
{
    match figures {
        Some(figures) => amount(heap, 16, Dollars::from(figures.set)),
        None => dash(heap, 16),
    }
}

/// The row of what a claim is of, with the term that gives the requirement of a set.
#[tactic(auto, unfolding(crate::specs::Claims::claim_row))]
fn claim_row(
    heap: Global,
    docket: &Docket<Sheet>,
    place: u64,
    claim: &Claim,
) -> Result<String, AllocError>
    ensures { IfOk result (λ t. string_bytes t
        ≡ claim_row (docket_by rules_on docket.now) place claim.now) }
{
    let article = article_of(docket.book(), claim.article);
    let name = left(heap, 25, article_words(article))?;
    let legs = legs_text(heap, claim)?;
    let legs = left(heap, 10, legs.as_str())?;
    let sets = number(heap, 4, claim.sets)?;
    let set = set_column(heap, claim_figures(docket, claim))?;
    let term = term_under(docket, claim, article);
    let place = number(heap, 2, place)?;
    format!(in heap; "{place} {name} {legs} {sets} {set}  {term}\n")
}

/// What a claim requires: its sets, the same units alone, and how much less the sets require.
fn amount_columns(heap: Global, figures: Option<ClaimFigures>) -> Result<String, AllocError>
    ensures { IfOk result (λ t. string_bytes t ≡ amount_columns figures) }
{
    let Some(figures) = figures else {
        let line = dash(heap, 21)?;
        let other = dash(heap, 22)?;
        return format!(in heap; "{line} {other} {other}");
    };
    let line = amount(heap, 21, Dollars::from(figures.all_sets))?;
    let alone = amount(heap, 22, Dollars::from(figures.alone))?;
    let saved = amount(heap, 22, Dollars::from(figures.saved))?;
    format!(in heap; "{line} {alone} {saved}")
}

/// The row of what a claim requires, by its number.
#[tactic(auto, unfolding(crate::specs::Claims::amount_row))]
fn amount_row(
    heap: Global,
    docket: &Docket<Sheet>,
    place: u64,
    claim: &Claim,
) -> Result<String, AllocError>
    ensures { IfOk result (λ t. string_bytes t
        ≡ amount_row (docket_by rules_on docket.now) place claim.now) }
{
    let amounts = amount_columns(heap, claim_figures(docket, claim))?;
    let place = number(heap, 2, place)?;
    format!(in heap; "{place} {amounts}\n")
}

/// What each claim is of.
fn claim_rows(heap: Global, docket: &Docket<Sheet>) -> Result<String, AllocError>
    ensures { IfOk result (λ t. string_bytes t
        ≡ rows_text (claim_row (docket_by rules_on docket.now)) 1 docket.now.tally.claims) }
{
    let mut out = String::new(heap);
    for (i, claim) in docket.claims().iter().enumerate() {
        let row = claim_row(heap, docket, i as u64 + 1, claim)?;
        out.push_str(row.as_str())?;
    }
    Ok(out)
}

/// What each claim requires.
fn amount_rows(heap: Global, docket: &Docket<Sheet>) -> Result<String, AllocError>
    ensures { IfOk result (λ t. string_bytes t
        ≡ rows_text (amount_row (docket_by rules_on docket.now)) 1 docket.now.tally.claims) }
{
    let mut out = String::new(heap);
    for (i, claim) in docket.claims().iter().enumerate() {
        let row = amount_row(heap, docket, i as u64 + 1, claim)?;
        out.push_str(row.as_str())?;
    }
    Ok(out)
}

/// The headings and all claims, twice.
#[tactic(auto, unfolding(crate::specs::Claims::claims_table))]
fn table(heap: Global, docket: &Docket<Sheet>) -> Result<String, AllocError>
    ensures { IfOk result (λ t. string_bytes t ≡ claims_table (docket_by rules_on docket.now)) }
{
    let claims = claim_rows(heap, docket)?;
    let amounts = amount_rows(heap, docket)?;
    format!(in heap;
        "\nClaims\n\nNo Article                   Legs       Sets          One set  By the term\n{claims}\nNo      All sets require      Their units alone                  Saved\n{amounts}"
    )
}

/// The word none where no claim stands, else the two tables.
pub(crate) fn section(heap: Global, docket: &Docket<Sheet>) -> Result<String, AllocError>
    ensures { IfOk result (λ t. string_bytes t ≡ claims_section (docket_by rules_on docket.now)) }
{
    if docket.claims().is_empty() {
        return String::from_str(heap, "\nClaims\n\n  none\n");
    }
    table(heap, docket)
}
