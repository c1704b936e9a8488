//! The sheet, in words.
ghost use Rattle.std.specs.Prelude.{◌≡◌, IfOk, string_bytes};
ghost use Rattle.rules_market.specs.Share.{shares_on};
ghost use Rattle.rules_market.specs.Currency.{currency_on};
ghost use Rattle.file_head.specs.Rates.{rates_on};
ghost use Rattle.page_statement.specs.Sheet.{yes_or_no_text, market_lines, share_lines, currency_lines, sheet_rows, sheet_section};

use crate::columns::{amount_line, line, rate_line};
use calls_docket::Docket;
use page_money::Dollars;
use rules_books::Sheet;
use rules_market::{CurrencySheet, Market, ShareSheet};
use std::alloc::{AllocError, Global};

fn yes_or_no(so: bool) -> &'static str
    ensures { result.now ≡ yes_or_no_text so }
{
    if so { "yes" } else { "no" }
}

/// What either market tells.
#[tactic(auto, unfolding(crate::specs::Sheet::market_lines))]
fn market_lines<M: Market>(heap: Global, market: &M) -> Result<String, AllocError>
    ensures { IfOk result (λ t. string_bytes t ≡ market_lines (M.quote market.now)) }
{
    let long = Dollars::from(market.long_requirement().parts);
    let long = amount_line(heap, "Long requirement of a unit", long)?;
    let short = Dollars::from(market.short_requirement().parts);
    let short = amount_line(heap, "Short requirement of a unit", short)?;
    let option = rate_line(heap, "Option rate", Some(market.option_rate()))?;
    let floor = rate_line(heap, "Floor rate", Some(market.floor_rate()))?;
    let futures = rate_line(heap, "Futures rate", market.futures_rate())?;
    let tracking = rate_line(heap, "Tracking rate", market.tracking_rate())?;
    format!(in heap; "{long}{short}{option}{floor}{futures}{tracking}")
}

/// A share, and whether it is eligible for a reduced margin.
#[tactic(auto, unfolding(crate::specs::Sheet::share_lines))]
fn share_lines(heap: Global, sheet: &ShareSheet) -> Result<String, AllocError>
    ensures { IfOk result (λ t. string_bytes t ≡ share_lines (shares_on sheet.now)) }
{
    let name = line(heap, "Market", "a share")?;
    let price = Dollars::from(sheet.price.parts());
    let price = amount_line(heap, "Price of a unit", price)?;
    let reduced = line(heap, "Reduced margin", yes_or_no(sheet.reduced))?;
    let market = market_lines(heap, sheet)?;
    format!(in heap; "{name}{price}{reduced}{market}")
}

/// A currency, of which a unit is 100, and its spot rate.
#[tactic(auto, unfolding(crate::specs::Sheet::currency_lines))]
fn currency_lines(heap: Global, sheet: &CurrencySheet) -> Result<String, AllocError>
    ensures { IfOk result (λ t. string_bytes t ≡ currency_lines (currency_on sheet.now)) }
{
    let name = line(heap, "Market", "a currency")?;
    let price = Dollars::from(sheet.price.parts());
    let price = amount_line(heap, "Price of 100 of the currency", price)?;
    let spot = rate_line(heap, "Spot rate", Some(sheet.spot))?;
    let market = market_lines(heap, sheet)?;
    format!(in heap; "{name}{price}{spot}{market}")
}

/// Either sheet.
fn sheet_lines(heap: Global, sheet: &Sheet) -> Result<String, AllocError>
    ensures { IfOk result (λ t. string_bytes t ≡ sheet_rows (rates_on sheet.now)) }
{
    match sheet {
        Sheet::Share(sheet) => share_lines(heap, sheet),
        Sheet::Currency(sheet) => currency_lines(heap, sheet),
    }
}

/// The sheet and the contract size.
#[tactic(auto, unfolding(crate::specs::Sheet::sheet_section))]
pub(crate) fn section(heap: Global, docket: &Docket<Sheet>) -> Result<String, AllocError>
    ensures { IfOk result (λ t. string_bytes t
        ≡ sheet_section (rates_on docket.now.book) docket.now.size) }
{
    let sheet = sheet_lines(heap, docket.book())?;
    let units = docket.size().units;
    let units = format!(in heap; "{units}")?;
    let size = line(heap, "Units in a contract", units.as_str())?;
    format!(in heap; "Sheet\n\n{sheet}{size}")
}
