//! The sheet of a currency: a struct of its own file, which its definitions speak of.
ghost use Rattle.std.specs.Prelude.{◌≤◌};

use rules_amounts::{Cents, Rate};

/// The published rates of a currency: the price of one unit, which is 100 of the currency, and its spot rate.
#[derive(Clone, Copy, Debug, PartialEq, Eq)]
pub struct CurrencySheet {
    pub price: Cents,
    pub spot: Rate,
    ghost some: { 1 ≤ price.amount },
}
