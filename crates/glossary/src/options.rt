//! Worked figures of options.
ghost use Rattle.std.specs.Prelude.{◌≡◌, IfOk, string_bytes};
ghost use Rattle.glossary.specs.Alone.{in_the_money_figure, out_of_the_money_figure, time_value_figure, counted_time_value_figure, long_option_figure, short_option_figure, floor_amount_figure};

use crate::words::{Parts, Price};
use crate::worked;
use page_money::Dollars;
use rules_market::Market;
use rules_pricing::Contract;
use std::alloc::{AllocError, Global};

/// In the money: a call and a put.
pub(crate) fn in_the_money<M: Market>(heap: Global, market: &M) -> Result<String, AllocError>
    ensures { IfOk result (λ t. string_bytes t ≡ in_the_money_figure (M.quote market.now)) }
{
    let price = Price(market.price());
    let call = Price(worked::in_the_money_call(market));
    let put = Price(worked::in_the_money_put(market));
    format!(in heap; "At {price}, a call of strike 45.00: {call}; a put of strike 53.00: {put}.")
}

/// Out of the money: a call and a put.
pub(crate) fn out_of_the_money<M: Market>(heap: Global, market: &M) -> Result<String, AllocError>
    ensures { IfOk result (λ t. string_bytes t ≡ out_of_the_money_figure (M.quote market.now)) }
{
    let price = Price(market.price());
    let call = Price(worked::out_of_the_money_call(market));
    let put = Price(worked::out_of_the_money_put(market));
    format!(in heap; "At {price}, a call of strike 55.00: {call}; a put of strike 48.00: {put}.")
}

/// Time value: of a call.
pub(crate) fn time_value<M: Market>(heap: Global, market: &M) -> Result<String, AllocError>
    ensures { IfOk result (λ t. string_bytes t ≡ time_value_figure (M.quote market.now)) }
{
    let price = Price(market.price());
    let time = Price(worked::time_value(market));
    format!(in heap; "At {price}, a call of strike 45.00 at a premium of 6.20: {time}.")
}

/// Counted time value: of that call, on either side of 270 days.
pub(crate) fn counted_time_value<M: Market>(heap: Global, market: &M) -> Result<String, AllocError>
    ensures { IfOk result (λ t. string_bytes t ≡ counted_time_value_figure (M.quote market.now)) }
{
    let whole = Parts(worked::counted_whole(market));
    let half = Parts(worked::counted_half(market));
    format!(in heap; "Of that call: {whole} with 269 days to expiry, {half} with 270.")
}

/// Long option: that call, held long, on either side of 270 days.
pub(crate) fn long_option<M: Market>(
    heap: Global,
    contract: &Contract<M>,
) -> Result<String, AllocError>
    ensures { IfOk result (λ t. string_bytes t ≡ long_option_figure contract.now) }
{
    let size = contract.size.units;
    let whole = Parts(worked::long_option_whole(contract));
    let half = Parts(worked::long_option_half(contract));
    format!(in heap;
        "That call, long, on {size} units: {whole} with 269 days to expiry, {half} with 270."
    )
}

/// Short option: a call whose first amount is the greater, and one whose floor amount is.
pub(crate) fn short_option<M: Market>(
    heap: Global,
    contract: &Contract<M>,
) -> Result<String, AllocError>
    ensures { IfOk result (λ t. string_bytes t ≡ short_option_figure contract.now) }
{
    let near = Parts(worked::short_option(contract));
    let far = Parts(worked::short_option_floored(contract));
    format!(in heap;
        "A short call of strike 55.00 at 1.20: {near}. A short call of strike 90.00 at 0.05: {far}."
    )
}

/// Floor amount: of the second of these, beside its first amount.
pub(crate) fn floor_amount<M: Market>(
    heap: Global,
    contract: &Contract<M>,
) -> Result<String, AllocError>
    ensures { IfOk result (λ t. string_bytes t ≡ floor_amount_figure contract.now) }
{
    let floor = Parts(worked::floor_amount(contract));
    let first = Dollars::from(i128::from(worked::before_floor(contract)));
    format!(in heap;
        "That of the short call of strike 90.00 at 0.05: {floor}. Its other amount is {first}."
    )
}
