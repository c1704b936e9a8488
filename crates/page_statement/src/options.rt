//! What the requirement of each option is made of.
ghost use Rattle.std.specs.Prelude.{◌≡◌, IfOk, string_bytes};
ghost use Rattle.std.specs.List.{list_all};
ghost use Rattle.rules_positions.specs.Records.{terms};
ghost use Rattle.page_figures.specs.Shown.{quote_of, ShowsOption};
ghost use Rattle.page_statement.specs.Columns.{rows_text};
ghost use Rattle.page_statement.specs.Options.{portion_words, ruling_words, unit_columns, short_columns, right_row, option_row, is_no_option, options_table, options_section};
ghost use Rattle.rules_pricing.specs.Priced.{contracts_of};
ghost use Rattle.certificate_pairing.specs.Dockets.{docket_by};

use crate::columns::{amount, cents, dash, left, number, right};
use calls_docket::Docket;
use page_figures::working_of;
use page_money::Dollars;
use page_wording::names::{kind_name, side_name};
use page_workings::{OptionWorking, Portion, Ruling, ShortWorking, right_of};
use rules_books::Sheet;
use rules_positions::Record;
use rules_pricing::Right;
use std::alloc::{AllocError, Global};

fn portion_words(portion: Portion) -> &'static str
    ensures { result.now ≡ portion_words portion }
{
    match portion {
        Portion::Whole => "100%",
        Portion::Half => "50%",
    }
}

fn ruling_words(ruling: Ruling) -> &'static str
    ensures { result.now ≡ ruling_words ruling }
{
    match ruling {
        Ruling::BeforeFloor => "first",
        Ruling::FloorAmount => "floor",
    }
}

/// The parts of an option, for one unit.
#[tactic(auto, unfolding(crate::specs::Options::unit_columns))]
fn unit_columns(heap: Global, working: &OptionWorking) -> Result<String, AllocError>
    ensures { IfOk result (λ t. string_bytes t
        ≡ unit_columns working.now.in_the_money.amount working.now.out_of_the_money.amount
        working.now.time_value.amount working.now.portion working.now.counted_time_value) }
{
    let inner = cents(heap, 8, Some(working.in_the_money))?;
    let outer = cents(heap, 8, Some(working.out_of_the_money))?;
    let time = cents(heap, 8, Some(working.time_value))?;
    let portion = right(heap, 4, portion_words(working.portion))?;
    let counted = amount(heap, 12, Dollars::from(working.counted_time_value))?;
    format!(in heap; "{inner} {outer} {time} {portion} {counted}")
}

/// The two amounts of a short option and the one that rules; a long option has none.
fn short_columns(heap: Global, short: Option<ShortWorking>) -> Result<String, AllocError>
    ensures { IfOk result (λ t. string_bytes t ≡ short_columns short) }
{
    let Some(short) = short else {
        let first = dash(heap, 17)?;
        let floor = dash(heap, 16)?;
        return format!(in heap; "{first} {floor} -");
    };
    let first = amount(heap, 17, Dollars::from(i128::from(short.before_floor)))?;
    let floor = amount(heap, 16, Dollars::from(short.floor_amount))?;
    let ruling = ruling_words(short.ruling);
    format!(in heap; "{first} {floor} {ruling}")
}

/// An option by its number.
#[tactic(auto, unfolding(crate::specs::Options::right_row))]
fn right_row(
    heap: Global,
    docket: &Docket<Sheet>,
    place: u64,
    right: Right,
    position: &Record,
) -> Result<String, AllocError>
    ensures { IfOk result (λ t. string_bytes t
        ≡ right_row (contracts_of
        (quote_of docket.now.book) docket.now.size) place position.now right) }
{
    let working = working_of(docket, right, position);
    let side = left(heap, 5, side_name(position.side))?;
    let kind = left(heap, 4, kind_name(position.kind))?;
    let unit = unit_columns(heap, &working)?;
    let short = short_columns(heap, working.short)?;
    let place = number(heap, 2, place)?;
    format!(in heap; "{place} {side} {kind} {unit} {short}\n")
}

/// The row of a position; one that is no option has none.
fn row(
    heap: Global,
    docket: &Docket<Sheet>,
    place: u64,
    position: &Record,
) -> Result<String, AllocError>
    ensures { IfOk result (λ t. string_bytes t
        ≡ option_row (contracts_of (quote_of docket.now.book) docket.now.size) place position.now) }
{
    match right_of(position.kind) {
        Some(right) => right_row(heap, docket, place, right, position),
        None => String::from_str(heap, ""),
    }
}

/// All options, in order of entry.
fn rows(heap: Global, docket: &Docket<Sheet>) -> Result<String, AllocError>
    ensures { IfOk result (λ t. string_bytes t
        ≡ rows_text (option_row (contracts_of
        (quote_of docket.now.book) docket.now.size)) 1 docket.now.tally.held) }
{
    let mut out = String::new(heap);
    for (i, position) in docket.positions().iter().enumerate() {
        let row = row(heap, docket, i as u64 + 1, position)?;
        out.push_str(row.as_str())?;
    }
    Ok(out)
}

/// The headings, all options, and a note.
#[tactic(auto, unfolding(crate::specs::Options::options_table))]
fn table(heap: Global, docket: &Docket<Sheet>) -> Result<String, AllocError>
    ensures { IfOk result (λ t. string_bytes t
        ≡ options_table (contracts_of
        (quote_of docket.now.book) docket.now.size) docket.now.tally.held) }
{
    let rows = rows(heap, docket)?;
    format!(in heap;
        "\nOptions\n\n                In the   Out of     Time         Part that             First            Floor\nNo Side  Kind    money    money    value Part       counts            amount           amount Rules\n{rows}\nIn and out of the money, time value and the part of it that counts are of one unit.\nA long option requires, for each unit of the contract, the part that counts and the lesser of the\nlong requirement and the amount in the money. A short option requires the greater of two amounts of\na contract, the first where they are equal: the premium and the option rate of the price less the\namount out of the money, and its floor amount.\n"
    )
}

/// Whether no position is an option.
fn no_options(positions: &[Record]) -> bool
    ensures { result ≡ list_all is_no_option positions.now }
{
    positions
        .iter()
        .all(|position| right_of(position.kind).is_none())
}

/// The word none where no position is an option, else the table.
#[tactic(auto, unfolding(crate::specs::Options::options_section))]
pub(crate) fn section(heap: Global, docket: &Docket<Sheet>) -> Result<String, AllocError>
    ensures { IfOk result (λ t. string_bytes t ≡ options_section (docket_by quote_of docket.now)) }
{
    if no_options(docket.positions()) {
        return String::from_str(heap, "\nOptions\n\n  none\n");
    }
    table(heap, docket)
}
