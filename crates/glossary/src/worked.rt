//! The worked figure of each term of the margin rules: examples, each computed by the function that prices every docket, in any market.
#![tactic(auto, unfolding(rules_positions::specs::Ranges::in_range))]

ghost use Rattle.std.specs.Prelude.{◌≡◌, true};
ghost use Rattle.rules_positions.specs.Ranges.{in_range};
ghost use Rattle.rules_positions.specs.Records.{terms};
ghost use Rattle.rules_priced_examples.specs.Examples.{held};

mod alone;
mod docket;
mod options;
mod sets;

pub(crate) use alone::{
    escrow_receipt, futures, long_requirement, part, requirement, short_requirement,
};
pub(crate) use docket::{breach, certificate, free_units, mark, total, verdict};
pub(crate) use options::{
    before_floor, counted_half, counted_whole, floor_amount, in_the_money_call, in_the_money_put,
    long_option_half, long_option_whole, out_of_the_money_call, out_of_the_money_put, short_option,
    short_option_floored, time_value,
};
use rules_positions::{Kind, Record, Side};
pub(crate) use sets::{conversion, protective_put, receipt_call, reconversion, spread, straddle};

/// One unit or contract of a position.
fn one(side: Side, kind: Kind, strike: u32, days: u16, price: u32) -> Record
    requires { in_range side kind strike days price ≡ true }
    ensures { terms result ≡ held side kind strike days price }
{
    Record {
        side,
        kind,
        strike,
        days,
        price,
        quantity: 1,
    }
}
