//! The positions held, with what each requires alone.
ghost use Rattle.std.specs.Prelude.{◌≡◌, IfOk, string_bytes, ◌+◌};
ghost use Rattle.std.specs.Option.{option_map};
ghost use Rattle.rules_market.specs.Quote.{cents_in};
ghost use Rattle.rules_books.specs.Books.{sheet_tables};
ghost use Rattle.page_statement.specs.Columns.{rows_text};
ghost use Rattle.page_statement.specs.Positions.{strike_of, price_of, days_text, record_columns, figure_columns, position_row, positions_table, positions_section};
ghost use Rattle.certificate_pairing.specs.Dockets.{docket_by};

use crate::columns::{amount, cents, dash, left, number};
use calls_docket::Docket;
use page_figures::{FreeFigures, free_figures};
use page_money::Dollars;
use page_wording::names::{kind_name, side_name};
use rules_amounts::Cents;
use rules_books::Sheet;
use rules_positions::{Kind, Record};
use std::alloc::{AllocError, Global};

/// The strike of an option.
fn strike_of(position: &Record) -> Option<Cents>
    ensures { option_map cents_in result ≡ strike_of position.now.kind position.now.strike }
{
    match position.kind {
        Kind::Call | Kind::Put => Some(position.strike_cents()),
        Kind::Units | Kind::Futures | Kind::Receipt => None,
    }
}

/// The premium of an option, the settlement of futures.
fn price_of(position: &Record) -> Option<Cents>
    ensures { option_map cents_in result ≡ price_of position.now.kind position.now.price }
{
    match position.kind {
        Kind::Call | Kind::Put | Kind::Futures => Some(position.price_cents()),
        Kind::Units | Kind::Receipt => None,
    }
}

/// The days to expiry of what expires.
fn days(heap: Global, position: &Record) -> Result<String, AllocError>
    ensures { IfOk result (λ t. string_bytes t ≡ days_text position.now.kind position.now.days) }
{
    match position.kind {
        Kind::Call | Kind::Put | Kind::Futures => number(heap, 4, u64::from(position.days)),
        Kind::Units | Kind::Receipt => dash(heap, 4),
    }
}

/// What a position is.
#[tactic(auto, unfolding(crate::specs::Positions::record_columns))]
fn record_columns(heap: Global, position: &Record) -> Result<String, AllocError>
    ensures { IfOk result (λ t. string_bytes t ≡ record_columns position.now) }
{
    let side = left(heap, 5, side_name(position.side))?;
    let kind = left(heap, 7, kind_name(position.kind))?;
    let strike = cents(heap, 8, strike_of(position))?;
    let days = days(heap, position)?;
    let price = cents(heap, 8, price_of(position))?;
    let quantity = number(heap, 8, u64::from(position.quantity))?;
    format!(in heap; "{side} {kind} {strike} {days} {price} {quantity}")
}

/// What it requires alone, and what is free of it.
#[tactic(auto, unfolding(crate::specs::Positions::figure_columns))]
fn figure_columns(heap: Global, figures: &FreeFigures) -> Result<String, AllocError>
    ensures { IfOk result (λ t. string_bytes t ≡ figure_columns figures.now) }
{
    let alone = amount(heap, 16, Dollars::from(figures.alone))?;
    let free = number(heap, 7, u64::from(figures.free))?;
    let whole = amount(heap, 21, Dollars::from(figures.amount))?;
    format!(in heap; "{alone} {free} {whole}")
}

/// A position by its number.
#[tactic(auto, unfolding(crate::specs::Positions::position_row))]
fn row(
    heap: Global,
    docket: &Docket<Sheet>,
    place: u64,
    position: &Record,
) -> Result<String, AllocError>
    ensures { IfOk result (λ t. string_bytes t
        ≡ position_row (docket_by sheet_tables docket.now) place position.now) }
{
    let record = record_columns(heap, position)?;
    let figures = figure_columns(heap, &free_figures(docket, place))?;
    let place = number(heap, 2, place)?;
    format!(in heap; "{place} {record} {figures}\n")
}

/// All positions, in order of entry.
fn rows(heap: Global, docket: &Docket<Sheet>) -> Result<String, AllocError>
    ensures { IfOk result (λ t. string_bytes t
        ≡ rows_text (position_row (docket_by sheet_tables docket.now)) 1 docket.now.tally.held) }
{
    let mut out = String::new(heap);
    for (i, position) in docket.positions().iter().enumerate() {
        let row = row(heap, docket, i as u64 + 1, position)?;
        out.push_str(row.as_str())?;
    }
    Ok(out)
}

/// The headings and all positions.
#[tactic(auto, unfolding(crate::specs::Positions::positions_table))]
fn table(heap: Global, docket: &Docket<Sheet>) -> Result<String, AllocError>
    ensures { IfOk result (λ t. string_bytes t
        ≡ positions_table (docket_by sheet_tables docket.now)) }
{
    let rows = rows(heap, docket)?;
    format!(in heap;
        "\nPositions\n\nNo Side  Kind      Strike Days    Price Quantity        One alone    Free   What is free, alone\n{rows}"
    )
}

/// The word none where no position is held, else the table.
#[tactic(auto, unfolding(crate::specs::Positions::positions_section))]
pub(crate) fn section(heap: Global, docket: &Docket<Sheet>) -> Result<String, AllocError>
    ensures { IfOk result (λ t. string_bytes t
        ≡ positions_section (docket_by sheet_tables docket.now)) }
{
    if docket.positions().is_empty() {
        return String::from_str(heap, "\nPositions\n\n  none\n");
    }
    table(heap, docket)
}
