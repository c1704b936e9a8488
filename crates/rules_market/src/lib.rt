//! What the rules need to know of the market in one underlying interest, and the two sheets that tell it.
#![tactic(auto)]

ghost use Rattle.std.specs.Prelude.{◌≡◌, ◌≤◌, IfOk, Some};
ghost use Rattle.rules_amounts.specs.Rates.{points, parts_in};
ghost use Rattle.std.specs.Result.{result_map_both};
ghost use Rattle.rules_market.specs.Quote.{Quote, KeepsLimits, tracked_of, basis_points_of, cents_in};
ghost use Rattle.rules_market.specs.Sheets.{sheet_number, sheet_text, price_in_range, rate_in_range, none_or_in_range, accepted};

mod currency;
mod currency_sheet;
mod share;
mod share_sheet;

pub use currency_sheet::CurrencySheet;
use rules_amounts::{Cents, Rate, UnitAmount};
pub use share_sheet::ShareSheet;
use std::error::Error;
use std::fmt;

/// What a market says of one unit of its underlying: its price, what it requires, and the rates of what stands on it. Its answers never change.
pub trait Market {
    ghost quote: { Self → Quote };

    /// The price of one unit.
    fn price(&self) -> Cents
        ensures { result.amount ≡ (quote self.now).price };

    /// What one unit held requires.
    fn long_requirement(&self) -> UnitAmount
        ensures { result.parts ≡ (quote self.now).long };

    /// What one unit owed requires.
    fn short_requirement(&self) -> UnitAmount
        ensures { result.parts ≡ (quote self.now).short };

    /// The rate of the price that a short option requires.
    fn option_rate(&self) -> Rate
        ensures { result.basis_points ≡ (quote self.now).option };

    /// The rate under which a short option's requirement does not fall.
    fn floor_rate(&self) -> Rate
        ensures { result.basis_points ≡ (quote self.now).floor };

    fn futures_rate(&self) -> Option<Rate>
        ensures { points result ≡ (quote self.now).futures };

    fn tracking_rate(&self) -> Option<Rate>
        ensures { points result ≡ (quote self.now).tracking };

    ghost limits: { (m : Self) → KeepsLimits (quote m) };
}

/// What a market refuses.
#[derive(Clone, Copy, Debug, PartialEq, Eq)]
pub enum MarketFault {
    NoTracking,
}

/// Why no sheet is made, by the number under which it is known.
#[derive(Clone, Copy, Debug, PartialEq, Eq)]
pub enum SheetFault {
    OutOfRange = 18,
}

impl SheetFault {
    /// The number by which the refusal is known; nothing is returned with it.
    pub fn number(self) -> u8
        ensures { result ≡ sheet_number self }
    {
        self as u8
    }
}

/// The number.
impl fmt::Display for SheetFault {
    ghost output = { λ f. Some (sheet_text f) };

    fn fmt<W: fmt::Write>(&self, f: &mut fmt::Formatter<W>) -> fmt::Result {
        write!(f, "refused={}", self.number())
    }
}

impl Error for SheetFault {}

/// The tracking rate of the price, for a unit, in parts, to 5,000,000,000; refused where the market has no such rate.
/// The rule stands in docs/RULES.md, "The articles".
pub fn tracked_amount<M: Market>(market: &M) -> Result<UnitAmount, MarketFault>
    ensures { result_map_both parts_in (λ f. f) result ≡ tracked_of (M.quote market.now) }
{
    let rate = market.tracking_rate().ok_or(MarketFault::NoTracking)?;
    Ok(UnitAmount {
        parts: rate.of(market.price()),
    })
}

/// A price that a sheet may hold.
fn price_of(cents: u64) -> Result<Cents, SheetFault>
    ensures value { result_map_both cents_in (λ f. f) result
        ≡ accepted (price_in_range cents) cents }
    ensures some { IfOk result (λ c. 1 ≤ c.amount) }
{
    Cents::new(cents)
        .filter(|price| price.amount >= 1)
        .ok_or(SheetFault::OutOfRange)
}

/// A rate that a sheet may hold.
fn rate_of(basis_points: u64) -> Result<Rate, SheetFault>
    ensures { result_map_both basis_points_of (λ f. f) result
        ≡ accepted (rate_in_range basis_points) basis_points }
{
    Rate::new(basis_points).ok_or(SheetFault::OutOfRange)
}

/// A rate that may be none.
fn optional_rate(basis_points: Option<u64>) -> Result<Option<Rate>, SheetFault>
    ensures { result_map_both points (λ f. f) result
        ≡ accepted (none_or_in_range basis_points) basis_points }
{
    basis_points.map(rate_of).transpose()
}
