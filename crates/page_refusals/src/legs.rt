//! A claim that is refused for one of its legs, in words.
ghost use Rattle.std.specs.Prelude.{◌≡◌, ◌*◌, IfOk, string_bytes};
ghost use Rattle.certificate_pairing.specs.Pairing.{lot};
ghost use Rattle.file_head.specs.Rates.{rates_on};
ghost use Rattle.page_refusals.specs.Before.{article_by, before_in};
ghost use Rattle.page_refusals.specs.Legs.{claim_on, position_of, leg_place, held_text, two_legs_text, third_right, leg_right, no_position_words, twice_words, free_or_none, short_text, short_leg_words, short_words, leg_words, wrong_side_text, wrong_leg_of, wrong_leg_words, days_right, wrong_days_words, no_tracking_words, other_cause_words, cause_words, refused_set_words, book_words};
ghost use Rattle.page_refusals.specs.Words.{said};

use crate::words::Words;
use calls_docket::Docket;
use certificate_pairing::{Claim, at, lot};
use file_body::values::claim_in;
use file_reading::Content;
use page_wording::fields::place_of;
use page_wording::names::{article_name, article_of, kind_name, ordinal, side_name};
use rules_articles::{Article, Leg};
use rules_books::{BookFault, Sheet};
use rules_positions::Record;
use std::alloc::{AllocError, Global};

/// The claim that a line sends.
pub(crate) fn claim_on(line: &[u8]) -> Claim
    ensures { result ≡ claim_on line.now }
{
    line.strip_prefix(b"claim=")
        .and_then(|value| claim_in(value, 7).ok())
        .unwrap_or_default()
}

/// The number of the position that is a leg.
fn position_of(claim: &Claim, leg: Leg) -> u64
    ensures { result ≡ position_of claim.now leg }
{
    match leg {
        Leg::First => claim.first,
        Leg::Second => claim.second,
        Leg::Third => claim.third,
    }
}

/// Where a leg's field begins: the article stands before the legs.
fn leg_place(line: &[u8], leg: Leg) -> usize
    ensures { result ≡ leg_place line.now leg }
{
    place_of(line, usize::from(leg.number()) + 1)
}

/// The article of a number in a book.
fn article(sheet: &Sheet, number: u64) -> Option<Article>
    ensures { result ≡ article_by (rates_on sheet.now) number }
{
    article_of(sheet, number)
}

/// How many positions there are.
fn held_text(heap: Global, held: usize) -> Result<String, AllocError>
    ensures { IfOk result (λ t. string_bytes t ≡ held_text held) }
{
    if held == 0 {
        return String::from_str(heap, "no position is held");
    }
    format!(in heap; "positions are numbered 1 to {held}")
}

/// What would be right for a third leg.
fn third_right(heap: Global, article: Option<Article>, held: usize) -> Result<String, AllocError>
    ensures { IfOk result (λ t. string_bytes t ≡ third_right article held) }
{
    match article {
        Some(article) if article.legs() == 2 => format!(in heap;
            "a {} has two legs, and the third leg is 0",
            article_name(article)
        ),
        _ => held_text(heap, held),
    }
}

/// What would be right for a leg that is no position.
fn leg_right(
    heap: Global,
    leg: Leg,
    article: Option<Article>,
    held: usize,
) -> Result<String, AllocError>
    ensures { IfOk result (λ t. string_bytes t ≡ leg_right leg article held) }
{
    match leg {
        Leg::First | Leg::Second => held_text(heap, held),
        Leg::Third => third_right(heap, article, held),
    }
}

/// A leg that is no position, or a third one beside two.
pub(crate) fn no_position(
    heap: Global,
    before: &Content,
    line: &[u8],
    leg: Leg,
) -> Result<Words, AllocError>
    ensures { IfOk result (λ w. said w ≡ no_position_words (before_in before.now) line.now leg) }
{
    let claim = claim_on(line);
    let position = position_of(&claim, leg);
    let name = ordinal(usize::from(leg.number()));
    let article = article(before.docket.book(), claim.article);
    Ok(Words {
        place: Some(leg_place(line, leg)),
        wrong: format!(in heap; "the {name} leg is {position}")?,
        right: leg_right(heap, leg, article, before.docket.positions().len())?,
    })
}

/// A position that is a leg twice.
pub(crate) fn twice(heap: Global, line: &[u8], leg: Leg) -> Result<Words, AllocError>
    ensures { IfOk result (λ w. said w ≡ twice_words line.now leg) }
{
    let position = position_of(&claim_on(line), leg);
    Ok(Words {
        place: Some(leg_place(line, leg)),
        wrong: format!(in heap; "position {position} is named twice")?,
        right: String::from_str(heap, "the legs of a set are distinct positions")?,
    })
}

/// What all sets of a claim take of a position.
fn needed(docket: &Docket<Sheet>, claim: &Claim, position: u64) -> u128
    ensures { result ≡ claim.now.sets * lot docket.now.size docket.now.tally.held position }
{
    u128::from(claim.sets) * u128::from(lot(docket.size(), docket.positions(), position))
}

/// What is free of a position; nothing where there is none.
fn free(docket: &Docket<Sheet>, position: u64) -> u32
    ensures { result ≡ free_or_none docket.now position }
{
    docket.free(position).unwrap_or(0)
}

/// What some sets take of a position, and what is free of it.
fn short_text(
    heap: Global,
    leg: Leg,
    sets: u64,
    needed: u128,
    position: u64,
    free: u32,
) -> Result<String, AllocError>
    ensures { IfOk result (λ t. string_bytes t ≡ short_text leg sets needed position free) }
{
    let number = leg.number();
    format!(in heap;
        "too few free units of leg {number}: {sets} sets take {needed} of position {position}, {free} are free"
    )
}

/// A position of which too little is free for a claim.
fn short_of(
    heap: Global,
    before: &Content,
    line: &[u8],
    leg: Leg,
    claim: &Claim,
    position: u64,
) -> Result<Words, AllocError>
    ensures { IfOk result (λ w. said w
        ≡ short_leg_words (before_in before.now) line.now leg claim.now position) }
{
    let needed = needed(&before.docket, claim, position);
    let free = free(&before.docket, position);
    let size = before.docket.size().units;
    Ok(Words {
        place: Some(leg_place(line, leg)),
        wrong: short_text(heap, leg, claim.sets, needed, position, free)?,
        right: format!(in heap;
            "a set takes {size} units of the underlying, and one contract of any other leg"
        )?,
    })
}

/// A leg of which too little is free.
pub(crate) fn short_of_units(
    heap: Global,
    before: &Content,
    line: &[u8],
    leg: Leg,
) -> Result<Words, AllocError>
    ensures { IfOk result (λ w. said w ≡ short_words (before_in before.now) line.now leg) }
{
    let claim = claim_on(line);
    short_of(heap, before, line, leg, &claim, position_of(&claim, leg))
}

/// What a leg of an article has to be.
fn leg_words(article: Article, leg: Leg) -> &'static str
    ensures { result.now ≡ leg_words article leg }
{
    match (article, leg) {
        (Article::CallSpread, Leg::First) => "long call",
        (Article::CallSpread, Leg::Second) => "short call",
        (Article::PutSpread, Leg::First) => "long put",
        (Article::PutSpread, Leg::Second) => "short put",
        (Article::Straddle, Leg::First) => "short call",
        (Article::Straddle, Leg::Second) => "short put",
        (Article::ProtectivePut, Leg::First) => "long put",
        (Article::ProtectivePut, Leg::Second) => "long units",
        (Article::Conversion, Leg::First) => "long put",
        (Article::Conversion, Leg::Second) => "short call",
        (Article::Conversion, Leg::Third) => "long futures",
        (Article::Reconversion, Leg::First) => "short put",
        (Article::Reconversion, Leg::Second) => "long call",
        (Article::Reconversion, Leg::Third) => "short futures",
        (Article::ReceiptCall, Leg::First) => "short call",
        (Article::ReceiptCall, Leg::Second) => "escrow receipt",
        (_, Leg::Third) => "none",
    }
}

/// What a position is that is a leg of a wrong side or kind.
fn wrong_side(
    heap: Global,
    leg: Leg,
    position: u64,
    side: &str,
    kind: &str,
) -> Result<String, AllocError>
    ensures { IfOk result (λ t. string_bytes t ≡ wrong_side_text leg position side.now kind.now) }
{
    let number = leg.number();
    format!(in heap; "leg {number} (position {position}) is of a wrong side or kind: {side} {kind}")
}

/// A position that is such a leg.
fn wrong_leg_of(
    heap: Global,
    line: &[u8],
    article: Article,
    leg: Leg,
    position: u64,
    held: &Record,
) -> Result<Words, AllocError>
    ensures { IfOk result (λ w. said w ≡ wrong_leg_of line.now article leg position held.now) }
{
    let number = leg.number();
    let name = article_name(article);
    let side = side_name(held.side);
    let kind = kind_name(held.kind);
    Ok(Words {
        place: Some(leg_place(line, leg)),
        wrong: wrong_side(heap, leg, position, side, kind)?,
        right: format!(in heap; "leg {number} of a {name}: {}", leg_words(article, leg))?,
    })
}

/// A leg of a wrong side or kind.
fn wrong_leg(
    heap: Global,
    before: &Content,
    line: &[u8],
    article: Article,
    leg: Leg,
) -> Result<Words, AllocError>
    ensures { IfOk result (λ w. said w
        ≡ wrong_leg_words (before_in before.now) line.now article leg) }
{
    let position = position_of(&claim_on(line), leg);
    let held = at(before.docket.positions(), position);
    wrong_leg_of(heap, line, article, leg, position, &held)
}

/// What would be right for the days of a set.
fn days_right(article: Article) -> &'static str
    ensures { result.now ≡ days_right article }
{
    match article {
        Article::CallSpread | Article::PutSpread =>
            "the short option of a spread expires no later than the long one",
        _ => "all legs expire together",
    }
}

/// Days that do not go together.
fn wrong_days(
    heap: Global,
    before: &Content,
    line: &[u8],
    article: Article,
    leg: Leg,
) -> Result<Words, AllocError>
    ensures { IfOk result (λ w. said w
        ≡ wrong_days_words (before_in before.now) line.now article leg) }
{
    let claim = claim_on(line);
    let held = before.docket.positions();
    let first = at(held, claim.first).days;
    let other = at(held, position_of(&claim, leg)).days;
    let number = leg.number();
    Ok(Words {
        place: Some(leg_place(line, leg)),
        wrong: format!(in heap;
            "the days to expiry of leg {number} are {other}, those of leg 1 are {first}"
        )?,
        right: String::from_str(heap, days_right(article))?,
    })
}

/// An article that needs a tracking rate.
fn no_tracking(heap: Global, line: &[u8], article: Article) -> Result<Words, AllocError>
    ensures { IfOk result (λ w. said w ≡ no_tracking_words line.now article) }
{
    Ok(Words {
        place: Some(place_of(line, 1)),
        wrong: String::from_str(heap, "the sheet has no tracking rate")?,
        right: format!(in heap;
            "a {} needs a tracking rate, on the line of tracking=",
            article_name(article)
        )?,
    })
}

/// A cause of another book.
fn other_cause(heap: Global, line: &[u8], cause: u8) -> Result<Words, AllocError>
    ensures { IfOk result (λ w. said w ≡ other_cause_words line.now cause) }
{
    Ok(Words {
        place: Some(place_of(line, 1)),
        wrong: format!(in heap; "the book refuses the set by cause {cause}")?,
        right: String::from_str(heap, "a set that the book allows")?,
    })
}

/// A set that the book refuses: by its cause, which the articles number, and the leg that it names.
pub(crate) fn book_words(
    heap: Global,
    before: &Content,
    line: &[u8],
    fault: BookFault,
) -> Result<Words, AllocError>
    ensures { IfOk result (λ w. said w ≡ book_words (before_in before.now) line.now fault) }
{
    let claim = claim_on(line);
    let Some(article) = article(before.docket.book(), claim.article) else {
        return other_cause(heap, line, fault.cause);
    };
    match (fault.cause, fault.leg) {
        (1, Some(leg)) => wrong_leg(heap, before, line, article, leg),
        (2, Some(leg)) => wrong_days(heap, before, line, article, leg),
        (3, None) => no_tracking(heap, line, article),
        (cause, _) => other_cause(heap, line, cause),
    }
}
