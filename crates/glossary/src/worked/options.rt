//! Options.
ghost use Rattle.std.specs.Prelude.{◌≡◌, pos};
ghost use Rattle.rules_positions.specs.declared.Side.TheVariants.{Long, Short};
ghost use Rattle.rules_positions.specs.declared.Kind.TheVariants as kind;
ghost use Rattle.rules_pricing.specs.declared.Right.TheVariants.{Call, Put};
ghost use Rattle.rules_pricing.specs.Options.{in_the_money, out_of_the_money, time_value, counted_time_value, long_option, before_floor, floor_amount, short_option};
ghost use Rattle.rules_priced_examples.specs.Examples.{held};

use super::one;
use rules_amounts::Cents;
use rules_market::Market;
use rules_positions::{Kind, Side};
use rules_pricing::{Contract, Right};

/// In the money: a call of strike 45.00.
pub(crate) fn in_the_money_call<M: Market>(market: &M) -> Cents
    ensures { result.amount ≡ in_the_money Call 4500 (M.quote market.now).price }
{
    rules_pricing::in_the_money(Right::Call, Cents { amount: 4_500 }, market.price())
}

/// In the money: a put of strike 53.00.
pub(crate) fn in_the_money_put<M: Market>(market: &M) -> Cents
    ensures { result.amount ≡ in_the_money Put 5300 (M.quote market.now).price }
{
    rules_pricing::in_the_money(Right::Put, Cents { amount: 5_300 }, market.price())
}

/// Out of the money: a call of strike 55.00.
pub(crate) fn out_of_the_money_call<M: Market>(market: &M) -> Cents
    ensures { result.amount ≡ out_of_the_money Call 5500 (M.quote market.now).price }
{
    rules_pricing::out_of_the_money(Right::Call, Cents { amount: 5_500 }, market.price())
}

/// Out of the money: a put of strike 48.00.
pub(crate) fn out_of_the_money_put<M: Market>(market: &M) -> Cents
    ensures { result.amount ≡ out_of_the_money Put 4800 (M.quote market.now).price }
{
    rules_pricing::out_of_the_money(Right::Put, Cents { amount: 4_800 }, market.price())
}

/// Time value: a call of strike 45.00 at 6.20.
pub(crate) fn time_value<M: Market>(market: &M) -> Cents
    ensures { result.amount ≡ time_value 620 (in_the_money Call 4500 (M.quote market.now).price) }
{
    rules_pricing::time_value(Cents { amount: 620 }, in_the_money_call(market))
}

/// Counted time value of the same call, 269 days to expiry.
pub(crate) fn counted_whole<M: Market>(market: &M) -> u64
    ensures { let in_money = in_the_money Call 4500 (M.quote market.now).price in
        result ≡ counted_time_value (time_value 620 in_money) 269 }
{
    rules_pricing::counted_time_value(time_value(market), 269)
}

/// Counted time value of the same call, 270 days to expiry.
pub(crate) fn counted_half<M: Market>(market: &M) -> u64
    ensures { let in_money = in_the_money Call 4500 (M.quote market.now).price in
        result ≡ counted_time_value (time_value 620 in_money) 270 }
{
    rules_pricing::counted_time_value(time_value(market), 270)
}

/// Long option: the same call, 269 days to expiry.
pub(crate) fn long_option_whole<M: Market>(contract: &Contract<M>) -> u64
    ensures { result ≡ long_option contract.now Call (held Long kind.Call 4500 269 620) }
{
    contract.long_option(Right::Call, &one(Side::Long, Kind::Call, 4_500, 269, 620))
}

/// Long option: the same call, 270 days to expiry.
pub(crate) fn long_option_half<M: Market>(contract: &Contract<M>) -> u64
    ensures { result ≡ long_option contract.now Call (held Long kind.Call 4500 270 620) }
{
    contract.long_option(Right::Call, &one(Side::Long, Kind::Call, 4_500, 270, 620))
}

/// Short option: a call of strike 55.00 at 1.20.
pub(crate) fn short_option<M: Market>(contract: &Contract<M>) -> u64
    ensures { pos result ≡ short_option contract.now Call (held Short kind.Call 5500 100 120) }
{
    contract.short_option(Right::Call, &one(Side::Short, Kind::Call, 5_500, 100, 120))
}

/// Short option: a call of strike 90.00 at 0.05.
pub(crate) fn short_option_floored<M: Market>(contract: &Contract<M>) -> u64
    ensures { pos result ≡ short_option contract.now Call (held Short kind.Call 9000 100 5) }
{
    contract.short_option(Right::Call, &one(Side::Short, Kind::Call, 9_000, 100, 5))
}

/// The first amount of that short option.
pub(crate) fn before_floor<M: Market>(contract: &Contract<M>) -> i64
    ensures { result ≡ before_floor contract.now Call (held Short kind.Call 9000 100 5) }
{
    contract.before_floor(Right::Call, &one(Side::Short, Kind::Call, 9_000, 100, 5))
}

/// Floor amount of that short option.
pub(crate) fn floor_amount<M: Market>(contract: &Contract<M>) -> u64
    ensures { result ≡ floor_amount contract.now Call (held Short kind.Call 9000 100 5) }
{
    contract.floor_amount(Right::Call, &one(Side::Short, Kind::Call, 9_000, 100, 5))
}
