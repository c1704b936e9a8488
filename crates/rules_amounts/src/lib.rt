//! Amounts with their ranges in their types, and the exact products of them.
//! Each has a type of its own, so that a price and a rate differ by more than numbers.
//! Prices are whole cents a unit, a rate is in basis points, and a part is one ten-thousandth of a cent, so that cents times a rate are parts.
#![tactic(auto)]

ghost use Rattle.std.specs.Prelude.{◌≡◌};
ghost use Rattle.rules_amounts.specs.Ranges.{within};

mod cents;
mod contract_size;
mod products;
mod rate;
mod unit_amount;

pub use cents::Cents;
pub use contract_size::ContractSize;
pub use rate::Rate;
pub use unit_amount::UnitAmount;

/// The number where it lies in the range, else none.
fn within(low: u64, high: u64, n: u64) -> Option<u64>
    ensures { result ≡ within low high n }
{
    (low..=high).contains(&n).then_some(n)
}
