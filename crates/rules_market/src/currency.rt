//! The market that a currency sheet tells of.
ghost use Rattle.std.specs.Prelude.{◌≡◌};
ghost use Rattle.std.specs.Result.{result_map_both};
ghost use Rattle.rules_market.specs.Currency.{currency_on, currency_of, currency_quote};
ghost use Rattle.rules_market.specs.Limits.{currency_limits};

use crate::currency_sheet::CurrencySheet;
use crate::{Market, SheetFault};
use rules_amounts::{Cents, Rate, UnitAmount};

impl CurrencySheet {
    /// The sheet, or a refusal where a value is outside its range.
    pub fn new(price: u64, spot: u64) -> Result<CurrencySheet, SheetFault>
        ensures { result_map_both currency_on (λ f. f) result
            ≡ currency_of (record { price = price; spot = spot }) }
    {
        let price = crate::price_of(price)?;
        let spot = crate::rate_of(spot)?;
        Ok(CurrencySheet { price, spot })
    }
}

impl Market for CurrencySheet {
    ghost quote = { λ c. currency_quote (currency_on c) };

    ghost limits = { λ m. currency_limits m };

    fn price(&self) -> Cents {
        self.price
    }

    fn long_requirement(&self) -> UnitAmount {
        UnitAmount {
            parts: self.spot.of(self.price),
        }
    }

    fn short_requirement(&self) -> UnitAmount {
        UnitAmount {
            parts: self.price.parts() + self.spot.of(self.price),
        }
    }

    fn option_rate(&self) -> Rate {
        self.spot
    }

    fn floor_rate(&self) -> Rate {
        Rate { basis_points: 75 }
    }

    fn futures_rate(&self) -> Option<Rate> {
        None
    }

    fn tracking_rate(&self) -> Option<Rate> {
        None
    }
}
