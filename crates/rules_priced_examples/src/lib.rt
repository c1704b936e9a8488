//! Priced examples on one share sheet: their amounts follow from the rules, as the contract of `sample_size` says.
#![tactic(auto)]

ghost use Rattle.std.specs.Prelude.{◌≡◌};
ghost use Rattle.rules_market.specs.Share.{shares_on};
ghost use Rattle.rules_priced_examples.specs.Examples.{sample_size, sample, TableComes};

use rules_amounts::{Cents, ContractSize, Rate};
use rules_market::ShareSheet;

/// Contracts of 100 units: with these, each row of the table of examples comes to its parts on the sample sheet, or is refused as it says.
pub fn sample_size() -> ContractSize
    ensures size { result.units ≡ sample_size }
    ensures priced { TableComes }
{
    ContractSize { units: 100 }
}

/// A share at 5,000 cents, with no reduced margin, floor rate 500, futures rate 2,000 and tracking rate 150.
pub fn sample_sheet() -> ShareSheet
    ensures { shares_on result ≡ sample }
{
    ShareSheet {
        price: Cents { amount: 5_000 },
        reduced: false,
        floor: Rate { basis_points: 500 },
        futures: Some(Rate {
            basis_points: 2_000,
        }),
        tracking: Some(Rate { basis_points: 150 }),
    }
}
