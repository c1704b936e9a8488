//! Texts, amounts and rates in the columns of a page.
ghost use Rattle.std.specs.Prelude.{◌≡◌, IfOk, string_bytes};
ghost use Rattle.std.specs.Option.{option_map};
ghost use Rattle.rules_amounts.specs.Rates.{points};
ghost use Rattle.rules_market.specs.Quote.{cents_in};
ghost use Rattle.page_money.specs.Amounts.{dollars_amount};
ghost use Rattle.page_money.specs.Texts.{dollars_text};
ghost use Rattle.page_statement.specs.Columns.{left_text, right_text, number_text, amount_text, dash_text, cents_or_dash, percent_text, percent_or_none, labelled_line};

use page_money::Dollars;
use page_wording::shown::spaces;
use rules_amounts::{Cents, Rate};
use std::alloc::{AllocError, Global};

/// A text at the left of so many columns.
#[tactic(auto, unfolding(crate::specs::Columns::left_text))]
pub(crate) fn left(heap: Global, width: usize, text: &str) -> Result<String, AllocError>
    ensures { IfOk result (λ t. string_bytes t ≡ left_text width text.now) }
{
    let after = spaces(heap, width.saturating_sub(text.len()))?;
    format!(in heap; "{text}{after}")
}

/// A text at the right of so many columns.
#[tactic(auto, unfolding(crate::specs::Columns::right_text))]
pub(crate) fn right(heap: Global, width: usize, text: &str) -> Result<String, AllocError>
    ensures { IfOk result (λ t. string_bytes t ≡ right_text width text.now) }
{
    let before = spaces(heap, width.saturating_sub(text.len()))?;
    format!(in heap; "{before}{text}")
}

/// A number.
pub(crate) fn number(heap: Global, width: usize, number: u64) -> Result<String, AllocError>
    ensures { IfOk result (λ t. string_bytes t ≡ number_text width number) }
{
    let text = format!(in heap; "{number}")?;
    right(heap, width, text.as_str())
}

/// An amount in dollars.
pub(crate) fn amount(heap: Global, width: usize, value: Dollars) -> Result<String, AllocError>
    ensures { IfOk result (λ t. string_bytes t ≡ amount_text width (dollars_amount value)) }
{
    let dollars = value.text(heap)?;
    right(heap, width, dollars.as_str())
}

/// A dash, where there is no such value.
pub(crate) fn dash(heap: Global, width: usize) -> Result<String, AllocError>
    ensures { IfOk result (λ t. string_bytes t ≡ dash_text width) }
{
    right(heap, width, "-")
}

/// Cents in dollars, where there are any.
pub(crate) fn cents(heap: Global, width: usize, cents: Option<Cents>) -> Result<String, AllocError>
    ensures { IfOk result (λ t. string_bytes t ≡ cents_or_dash width (option_map cents_in cents)) }
{
    match cents {
        Some(cents) => amount(heap, width, Dollars::from(cents.parts())),
        None => dash(heap, width),
    }
}

/// A rate in percent.
#[tactic(auto, unfolding(crate::specs::Columns::percent_text))]
fn percent(heap: Global, rate: Rate) -> Result<String, AllocError>
    ensures { IfOk result (λ t. string_bytes t ≡ percent_text rate.basis_points) }
{
    let whole = rate.basis_points / 100;
    let tenths = rate.basis_points / 10 % 10;
    let hundredths = rate.basis_points % 10;
    format!(in heap; "{whole}.{tenths}{hundredths}%")
}

/// A rate in percent, or none.
fn rate(heap: Global, rate: Option<Rate>) -> Result<String, AllocError>
    ensures { IfOk result (λ t. string_bytes t ≡ percent_or_none (points rate)) }
{
    match rate {
        Some(rate) => percent(heap, rate),
        None => String::from_str(heap, "none"),
    }
}

/// A line with a label and a value.
#[tactic(auto, unfolding(crate::specs::Columns::labelled_line))]
pub(crate) fn line(heap: Global, label: &str, value: &str) -> Result<String, AllocError>
    ensures { IfOk result (λ t. string_bytes t ≡ labelled_line label.now value.now) }
{
    let label = left(heap, 28, label)?;
    let value = right(heap, 14, value)?;
    format!(in heap; "  {label} {value}\n")
}

/// A line with a label and an amount.
pub(crate) fn amount_line(heap: Global, label: &str, value: Dollars) -> Result<String, AllocError>
    ensures { IfOk result (λ t. string_bytes t
        ≡ labelled_line label.now (dollars_text (dollars_amount value))) }
{
    let text = value.text(heap)?;
    line(heap, label, text.as_str())
}

/// A line with a label and a rate, or none.
pub(crate) fn rate_line(
    heap: Global,
    label: &str,
    value: Option<Rate>,
) -> Result<String, AllocError>
    ensures { IfOk result (λ t. string_bytes t
        ≡ labelled_line label.now (percent_or_none (points value))) }
{
    let text = rate(heap, value)?;
    line(heap, label, text.as_str())
}
