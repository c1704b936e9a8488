//! The market that a share sheet tells of.
ghost use Rattle.std.specs.Prelude.{◌≡◌};
ghost use Rattle.std.specs.Result.{result_map_both};
ghost use Rattle.rules_market.specs.Share.{row_at, shares_on, sheet_of, share_quote};
ghost use Rattle.rules_market.specs.Limits.{share_limits};

use crate::share_sheet::{Row, ShareSheet};
use crate::{Market, SheetFault};
use rules_amounts::{Cents, Rate, UnitAmount};

impl ShareSheet {
    /// The row of the table at the price.
    fn row(&self) -> Row
        ensures rate { result.long_rate.basis_points
            ≡ (row_at self.now.price.amount self.now.reduced).long_rate }
        ensures short { result.short.parts ≡ (row_at self.now.price.amount self.now.reduced).short }
    {
        let cents = u64::from(self.price.amount);
        let (basis_points, parts) = match self.price.amount {
            200.. if self.reduced => (3_000, 13_000 * cents),
            200.. => (5_000, 15_000 * cents),
            175..=199 => (6_000, 300 * 10_000),
            150..=174 => (8_000, 300 * 10_000),
            25..=149 => (10_000, 20_000 * cents),
            _ => (10_000, (cents + 25) * 10_000),
        };
        Row {
            long_rate: Rate { basis_points },
            short: UnitAmount { parts },
        }
    }

    /// The sheet, or a refusal where a value is outside its range.
    pub fn new(
        price: u64,
        reduced: bool,
        floor: u64,
        futures: Option<u64>,
        tracking: Option<u64>,
    ) -> Result<ShareSheet, SheetFault>
        ensures { result_map_both shares_on (λ f. f) result
            ≡ sheet_of
            (record {
              price = price;
              reduced = reduced;
              floor = floor;
              futures = futures;
              tracking =
                  tracking;
            }) }
    {
        let price = crate::price_of(price)?;
        let floor = crate::rate_of(floor)?;
        let futures = crate::optional_rate(futures)?;
        let tracking = crate::optional_rate(tracking)?;
        Ok(ShareSheet {
            price,
            reduced,
            floor,
            futures,
            tracking,
        })
    }
}

impl Market for ShareSheet {
    ghost quote = { λ s. share_quote (shares_on s) };

    ghost limits = { λ m. share_limits m };

    fn price(&self) -> Cents {
        self.price
    }

    fn long_requirement(&self) -> UnitAmount {
        UnitAmount {
            parts: self.option_rate().of(self.price),
        }
    }

    fn short_requirement(&self) -> UnitAmount {
        self.row().short
    }

    fn option_rate(&self) -> Rate {
        self.row().long_rate
    }

    fn floor_rate(&self) -> Rate {
        self.floor
    }

    fn futures_rate(&self) -> Option<Rate> {
        self.futures
    }

    fn tracking_rate(&self) -> Option<Rate> {
        self.tracking
    }
}
