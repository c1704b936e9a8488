//! What a set requires, its conditions met.
ghost use Rattle.std.specs.Prelude.{◌≡◌, ◌+◌, ◌*◌, pos};
ghost use Rattle.rules_positions.specs.Records.{terms};
ghost use Rattle.rules_articles.specs.Sets.{spread_amount, straddle_amount, protective_put_amount, converted_amount};

use crate::articles::ConversionLegs;
use rules_amounts::{Cents, ContractSize, UnitAmount};
use rules_market::Market;
use rules_positions::{Record, Side};
use rules_pricing::{Contract, Right, excess};

/// A spread: the lesser of the short option alone and the strikes' difference.
pub(crate) fn spread_amount<M: Market>(
    contract: &Contract<M>,
    right: Right,
    long: &Record,
    short: &Record,
) -> u64
    ensures { result ≡ spread_amount contract.now right (terms long.now) (terms short.now) }
{
    let apart = long.strike_cents().apart(short.strike_cents());
    let difference = contract.size.times(UnitAmount {
        parts: apart.parts(),
    });
    contract.short_option(right, short).min(difference)
}

/// A straddle: the greatest of either option alone and the put's strike above the call's.
pub(crate) fn straddle_amount<M: Market>(contract: &Contract<M>, call: &Record, put: &Record) -> u64
    ensures { result ≡ straddle_amount contract.now (terms call.now) (terms put.now) }
{
    let excess = excess(put.strike_cents(), call.strike_cents());
    let difference = contract.size.times(UnitAmount {
        parts: excess.parts(),
    });
    let of_call = contract.short_option(Right::Call, call);
    let of_put = contract.short_option(Right::Put, put);
    of_call.max(of_put).max(difference)
}

/// A protective put: the lesser of a contract's long units and the price plus the premium less the strike.
pub(crate) fn protective_put_amount<M: Market>(contract: &Contract<M>, put: &Record) -> u64
    ensures { result ≡ protective_put_amount contract.now (terms put.now) }
{
    let paid = contract.market.price().parts() + put.price_cents().parts();
    let at_risk = paid.saturating_sub(put.strike_cents().parts());
    let difference = contract.size.times(UnitAmount { parts: at_risk });
    let held = contract.size.times(contract.market.long_requirement());
    held.min(difference)
}

/// A conversion, of the long side, and a reconversion, of the short one: the greater of the tracked amount and a difference, which may be negative.
pub(crate) fn conversion_amount(
    size: ContractSize,
    tracked: UnitAmount,
    legs: &ConversionLegs,
) -> u64
    ensures { pos result
        ≡ converted_amount size.units tracked.parts legs.now.side (terms legs.now.put.now)
        (terms legs.now.call.now) (terms legs.now.futures.now) }
{
    let ConversionLegs {
        side,
        put,
        call,
        futures,
    } = *legs;
    let lesser = put.strike_cents().min(call.strike_cents());
    let larger = put.strike_cents().max(call.strike_cents());
    let difference = match side {
        // Settlement − lesser strike + put premium − call premium.
        Side::Long => size.difference(
            futures.price_cents().plus(put.price_cents()),
            lesser.plus(call.price_cents()),
        ),
        // Greater strike − settlement + call premium − put premium.
        Side::Short => size.difference(
            larger.plus(call.price_cents()),
            futures.price_cents().plus(put.price_cents()),
        ),
    };
    // The first cast is of at most 10,000,000,000,000; the second is of no less than that product, so not below 0.
    difference.max(size.times(tracked) as i64) as u64
}
