//! The parts of an option's requirement, each by the function that prices it.
ghost use Rattle.std.specs.Prelude.{◌≡◌, ◌*◌};
ghost use Rattle.rules_positions.specs.Records.{terms};
ghost use Rattle.rules_pricing.specs.Options.{in_the_money, out_of_the_money, time_value_of, counted_time_value, before_floor, floor_amount, short_option};
ghost use Rattle.page_workings.specs.Options.{right_of, portion_of, portion_points, ruling_of, ruling_amount, short_working_of, short_by_side};

use crate::{OptionWorking, Portion, Ruling, ShortWorking};
use rules_market::Market;
use rules_positions::{Kind, Record, Side};
use rules_pricing::{
    Contract, Right, counted_time_value, in_the_money, out_of_the_money, time_value,
};

/// The right that a kind of position gives, if it is an option.
pub fn right_of(kind: Kind) -> Option<Right>
    ensures { result ≡ right_of kind }
{
    match kind {
        Kind::Call => Some(Right::Call),
        Kind::Put => Some(Right::Put),
        Kind::Units | Kind::Futures | Kind::Receipt => None,
    }
}

/// How much of the time value counts at so many days.
fn portion_of(days: u16) -> Portion
    ensures { result ≡ portion_of days }
{
    if days >= 270 {
        Portion::Half
    } else {
        Portion::Whole
    }
}

/// The amount that rules.
fn ruling_of(before_floor: i64, floor_amount: u64) -> Ruling
    ensures { result ≡ ruling_of before_floor floor_amount }
{
    if i128::from(before_floor) < i128::from(floor_amount) {
        Ruling::FloorAmount
    } else {
        Ruling::BeforeFloor
    }
}

/// A short option: its two amounts for a contract, and the one that is its requirement.
pub fn short_working<M: Market>(
    contract: &Contract<M>,
    right: Right,
    option: &Record,
) -> ShortWorking
    ensures value { result ≡ short_working_of contract.now right (terms option.now) }
    ensures rules { ruling_amount result ≡ short_option contract.now right (terms option.now) }
{
    let before_floor = contract.before_floor(right, option);
    let floor_amount = contract.floor_amount(right, option);
    ShortWorking {
        before_floor,
        floor_amount,
        ruling: ruling_of(before_floor, floor_amount),
    }
}

/// An option of either side.
pub fn option_working<M: Market>(
    contract: &Contract<M>,
    right: Right,
    option: &Record,
) -> OptionWorking
    ensures in_money { result.in_the_money.amount
        ≡ in_the_money right option.now.strike contract.now.quote.price }
    ensures out_of_money { result.out_of_the_money.amount
        ≡ out_of_the_money right option.now.strike contract.now.quote.price }
    ensures time { result.time_value.amount
        ≡ time_value_of contract.now.quote right (terms option.now) }
    ensures portion { result.portion ≡ portion_of option.now.days }
    ensures counted { result.counted_time_value
        ≡ counted_time_value (time_value_of contract.now.quote right
        (terms option.now)) option.now.days }
    ensures counts { result.counted_time_value
        ≡ result.time_value.amount * portion_points result.portion }
    ensures short { result.short
        ≡ short_by_side contract.now right (terms option.now) option.now.side }
{
    let price = contract.market.price();
    let strike = option.strike_cents();
    let in_money = in_the_money(right, strike, price);
    let time_value = time_value(option.price_cents(), in_money);
    OptionWorking {
        in_the_money: in_money,
        out_of_the_money: out_of_the_money(right, strike, price),
        time_value,
        portion: portion_of(option.days),
        counted_time_value: counted_time_value(time_value, option.days),
        short: match option.side {
            Side::Long => None,
            Side::Short => Some(short_working(contract, right, option)),
        },
    }
}
