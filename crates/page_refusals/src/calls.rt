//! A refused call of a file's line, in words, by what the lines before it describe.
ghost use Rattle.std.specs.Prelude.{◌≡◌, IfOk};
ghost use Rattle.file_head.specs.Rates.{rates_on};
ghost use Rattle.page_refusals.specs.Before.{before_in};
ghost use Rattle.page_refusals.specs.Calls.{book_name, no_article_words, held_words, not_one_each_words, beyond_words, call_words};
ghost use Rattle.page_refusals.specs.Words.{said};

use crate::legs::{book_words, claim_on, no_position, short_of_units, twice};
use crate::words::{Words, plain};
use crate::{ranges, sheets};
use calls_docket::Refusal;
use file_reading::Content;
use page_wording::fields::place_of;
use rules_books::{Book, Sheet};
use std::alloc::{AllocError, Global};

/// The book of a sheet.
fn book_name(sheet: &Sheet) -> &'static str
    ensures { result.now ≡ book_name (rates_on sheet.now) }
{
    match sheet {
        Sheet::Share(_) => "share",
        Sheet::Currency(_) => "currency",
    }
}

/// An article that the book has not.
fn no_article(heap: Global, sheet: &Sheet, line: &[u8]) -> Result<Words, AllocError>
    ensures { IfOk result (λ w. said w ≡ no_article_words (rates_on sheet.now) line.now) }
{
    let article = claim_on(line).article;
    let book = book_name(sheet);
    Ok(Words {
        place: Some(place_of(line, 1)),
        wrong: format!(in heap; "there is no article {article}")?,
        right: format!(in heap;
            "the articles of the {book} book are 1 to {}",
            sheet.articles()
        )?,
    })
}

/// A position that is entered a second time.
fn held_already(heap: Global, line: &[u8], position: usize) -> Result<Words, AllocError>
    ensures { IfOk result (λ w. said w ≡ held_words line.now position) }
{
    Ok(Words {
        place: Some(place_of(line, 1)),
        wrong: format!(in heap; "position {position} has the same side, kind, strike and days")?,
        right: String::from_str(heap, "a position is entered once, with its whole quantity")?,
    })
}

/// Marks that are not one for each position.
fn not_one_each(heap: Global, given: usize, held: usize) -> Result<Words, AllocError>
    ensures { IfOk result (λ w. said w ≡ not_one_each_words given held) }
{
    Ok(Words {
        place: None,
        wrong: format!(in heap; "{given} marks are given for {held} positions")?,
        right: String::from_str(heap, "there is one mark for each position")?,
    })
}

/// A mark beyond its limit.
fn beyond_limit(heap: Global, position: usize) -> Result<Words, AllocError>
    ensures { IfOk result (λ w. said w ≡ beyond_words position) }
{
    Ok(Words {
        place: None,
        wrong: format!(in heap; "the mark of position {position} is beyond its limit")?,
        right: String::from_str(heap, "a mark is within the limit of its position's kind")?,
    })
}

/// A refused call by its refusal. A file makes no call of release and none of certify on a line.
pub(crate) fn words(
    heap: Global,
    before: &Content,
    line: &[u8],
    refusal: Refusal,
) -> Result<Words, AllocError>
    ensures { IfOk result (λ w. said w ≡ call_words (before_in before.now) line.now refusal) }
{
    match refusal {
        Refusal::SizeOutOfRange => sheets::size_words(heap),
        Refusal::FieldOutOfRange(field) => ranges::words(heap, before.docket.size(), line, field),
        Refusal::AlreadyHeld(position) => held_already(heap, line, position),
        Refusal::PositionsFull => plain(
            heap,
            Some(1),
            "32 positions are held already",
            "a docket holds at most 32 positions",
        ),
        Refusal::NoSuchArticle => no_article(heap, before.docket.book(), line),
        Refusal::SetsOutOfRange => plain(
            heap,
            Some(place_of(line, 5)),
            "the fifth field (sets) is out of its range",
            "a claim is for 1 to 5,000 sets",
        ),
        Refusal::NoSuchPosition(leg) => no_position(heap, before, line, leg),
        Refusal::PositionTwice(leg) => twice(heap, line, leg),
        Refusal::BookRefuses(fault) => book_words(heap, before, line, fault),
        Refusal::UnitsShort(leg) => short_of_units(heap, before, line, leg),
        Refusal::ClaimsFull => plain(
            heap,
            Some(1),
            "64 lines of claims stand already",
            "a docket has at most 64 lines of claims",
        ),
        Refusal::ClaimTooLarge => plain(
            heap,
            Some(place_of(line, 5)),
            "the line of claims would pass 5,000 sets",
            "a line of claims has at most 5,000 sets",
        ),
        Refusal::NoSuchClaim => plain(
            heap,
            Some(1),
            "no line of claims has this article and these legs",
            "sets are released from a line that stands",
        ),
        Refusal::MoreThanClaimed => plain(
            heap,
            Some(place_of(line, 5)),
            "the line of claims has fewer sets",
            "at most the sets of the line are released",
        ),
        Refusal::NotOneEach { given, held } => not_one_each(heap, given, held),
        Refusal::BeyondLimit(position) => beyond_limit(heap, position),
        Refusal::Unfair(_) => plain(
            heap,
            Some(1),
            "the marks are not fair",
            "no mark and no set's marks are above what is required",
        ),
    }
}
