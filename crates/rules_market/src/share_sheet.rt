//! The sheet of a share: a struct of its own file, which its definitions speak of.
ghost use Rattle.std.specs.Prelude.{◌≤◌};

use rules_amounts::{Cents, Rate, UnitAmount};

/// The published rates of a share: its price, whether it is eligible for a reduced margin, and its floor, futures and tracking rates.
#[derive(Clone, Copy, Debug, PartialEq, Eq)]
pub struct ShareSheet {
    pub price: Cents,
    pub reduced: bool,
    pub floor: Rate,
    pub futures: Option<Rate>,
    pub tracking: Option<Rate>,
    ghost some: { 1 ≤ price.amount },
}

/// A row of the table by price: the long percentage, and the short requirement of one unit.
#[derive(Clone, Copy)]
pub struct Row {
    pub long_rate: Rate,
    pub short: UnitAmount,
}
