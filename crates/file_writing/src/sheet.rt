//! Lines of a sheet, in the file's format.
ghost use Rattle.std.specs.Prelude.{◌≡◌, IfOk, string_bytes};
ghost use Rattle.std.specs.List.{flat_map};
ghost use Rattle.rules_market.specs.Share.{shares_on};
ghost use Rattle.rules_market.specs.Currency.{currency_on};
ghost use Rattle.file_head.specs.Rates.{rates_on, share, currency};
ghost use Rattle.file_writing.specs.Texts.{ended, reduced_text, sheet_lines};

use crate::OrNone;
use rules_books::Sheet;
use rules_market::{CurrencySheet, ShareSheet};
use std::alloc::{AllocError, Global};

/// Whether a share is eligible for a reduced margin: by hand, since a bool prints as true or false.
fn yes_or_no(reduced: bool) -> &'static str
    ensures { result.now ≡ reduced_text reduced }
{
    if reduced { "yes" } else { "no" }
}

/// The lines of a share.
fn share_lines(heap: Global, sheet: &ShareSheet) -> Result<String, AllocError>
    ensures { IfOk result (λ t. string_bytes t
        ≡ flat_map ended (sheet_lines (share (shares_on sheet.now)))) }
{
    format!(in heap;
        "market=share\nprice={}\nreduced={}\nfloor={}\nfutures={}\ntracking={}\n",
        sheet.price.amount,
        yes_or_no(sheet.reduced),
        sheet.floor.basis_points,
        OrNone(sheet.futures.map(|rate| rate.basis_points)),
        OrNone(sheet.tracking.map(|rate| rate.basis_points)),
    )
}

/// The lines of a currency.
fn currency_lines(heap: Global, sheet: &CurrencySheet) -> Result<String, AllocError>
    ensures { IfOk result (λ t. string_bytes t
        ≡ flat_map ended (sheet_lines (currency (currency_on sheet.now)))) }
{
    format!(in heap;
        "market=currency\nprice={}\nspot={}\n",
        sheet.price.amount, sheet.spot.basis_points,
    )
}

/// The lines of either sheet.
pub(crate) fn sheet_lines(heap: Global, sheet: &Sheet) -> Result<String, AllocError>
    ensures { IfOk result (λ t. string_bytes t
        ≡ flat_map ended (sheet_lines (rates_on sheet.now))) }
{
    match sheet {
        Sheet::Share(sheet) => share_lines(heap, sheet),
        Sheet::Currency(sheet) => currency_lines(heap, sheet),
    }
}
