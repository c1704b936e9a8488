//! The articles, each with its legs in their order: the requirement of a set, or the first cause to refuse it.
ghost use Rattle.std.specs.Prelude.{◌≡◌, ◌*◌, ◌≤◌, IfOk};
ghost use Rattle.std.specs.Result.{result_map_both};
ghost use Rattle.rules_amounts.specs.Rates.{parts_in};
ghost use Rattle.rules_positions.specs.Records.{terms};
ghost use Rattle.rules_pricing.specs.Alone.{alone};
ghost use Rattle.rules_articles.specs.Articles.{spread, straddle, protective_put, aligned, converted, receipt_call};

use crate::conditions::{leg_is, not_later, same_days};
use crate::sets::{conversion_amount, protective_put_amount, spread_amount, straddle_amount};
use crate::{ArticleFault, Leg};
use rules_amounts::UnitAmount;
use rules_market::{Market, tracked_amount};
use rules_positions::{Kind, Record, Side};
use rules_pricing::{Contract, Right};

/// 1 (calls) and 2 (puts). A spread: long option, short option, the short one's days not above the long one's.
pub fn spread<M: Market>(
    contract: &Contract<M>,
    right: Right,
    long: &Record,
    short: &Record,
) -> Result<u64, ArticleFault>
    ensures value { result ≡ spread contract.now right (terms long.now) (terms short.now) }
    ensures under_short { IfOk result (λ n. n ≤ alone contract.now (terms short.now)) }
{
    leg_is(Leg::First, Side::Long, right.into(), long)?;
    leg_is(Leg::Second, Side::Short, right.into(), short)?;
    not_later(long, short)?;
    Ok(spread_amount(contract, right, long, short))
}

/// 3. A straddle: short call, short put.
pub fn straddle<M: Market>(
    contract: &Contract<M>,
    call: &Record,
    put: &Record,
) -> Result<u64, ArticleFault>
    ensures value { result ≡ straddle contract.now (terms call.now) (terms put.now) }
    ensures over_call { IfOk result (λ n. alone contract.now (terms call.now) ≤ n) }
    ensures over_put { IfOk result (λ n. alone contract.now (terms put.now) ≤ n) }
{
    leg_is(Leg::First, Side::Short, Kind::Call, call)?;
    leg_is(Leg::Second, Side::Short, Kind::Put, put)?;
    Ok(straddle_amount(contract, call, put))
}

/// 4. A protective put: long put, long units.
pub fn protective_put<M: Market>(
    contract: &Contract<M>,
    put: &Record,
    units: &Record,
) -> Result<u64, ArticleFault>
    ensures value { result ≡ protective_put contract.now (terms put.now) (terms units.now) }
    ensures under_units { IfOk result (λ n.
        n ≤ contract.now.size * alone contract.now (terms units.now)) }
{
    leg_is(Leg::First, Side::Long, Kind::Put, put)?;
    leg_is(Leg::Second, Side::Long, Kind::Units, units)?;
    Ok(protective_put_amount(contract, put))
}

/// The legs of a conversion or of a reconversion, with the side of its put and of its futures.
#[derive(Clone, Copy, Debug, PartialEq, Eq)]
pub struct ConversionLegs<'a> {
    pub side: Side,
    pub put: &'a Record,
    pub call: &'a Record,
    pub futures: &'a Record,
}

/// Put and futures of one side, the call of the other, all days equal; and the tracked amount of a unit.
fn aligned_legs<M: Market>(market: &M, legs: &ConversionLegs) -> Result<UnitAmount, ArticleFault>
    ensures { result_map_both parts_in (λ f. f) result
        ≡ aligned (M.quote market.now) legs.now.side (terms legs.now.put.now)
        (terms legs.now.call.now) (terms legs.now.futures.now) }
{
    leg_is(Leg::First, legs.side, Kind::Put, legs.put)?;
    leg_is(Leg::Second, legs.side.opposite(), Kind::Call, legs.call)?;
    leg_is(Leg::Third, legs.side, Kind::Futures, legs.futures)?;
    same_days(legs.put, legs.call, legs.futures)?;
    Ok(tracked_amount(market)?)
}

/// 5 and 6 of the share book. Put and futures long, the call short, is a conversion; put and futures short, the call long, a reconversion; days equal.
pub fn conversion<M: Market>(
    contract: &Contract<M>,
    legs: &ConversionLegs,
) -> Result<u64, ArticleFault>
    ensures { result
        ≡ converted contract.now legs.now.side (terms legs.now.put.now) (terms legs.now.call.now)
        (terms legs.now.futures.now) }
{
    let tracked = aligned_legs(contract.market, legs)?;
    Ok(conversion_amount(contract.size, tracked, legs))
}

/// 5 of the currency book. A call on an escrow receipt: short call, receipt; nothing is required.
pub fn receipt_call(call: &Record, receipt: &Record) -> Result<u64, ArticleFault>
    ensures { result ≡ receipt_call (terms call.now) (terms receipt.now) }
{
    leg_is(Leg::First, Side::Short, Kind::Call, call)?;
    leg_is(Leg::Second, Side::Long, Kind::Receipt, receipt)?;
    Ok(0)
}
