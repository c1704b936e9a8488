//! The rules of the articles, term by term in their order.
ghost use Rattle.std.specs.Prelude.{◌≡◌, ◌+◌, ◌*◌, pos, ◌-ℤ◌, ◌*ℤ◌};
ghost use Rattle.rules_positions.specs.Records.{terms};
ghost use Rattle.rules_articles.specs.Sets.{contract, apart, short_alone};
ghost use Rattle.page_workings.specs.Rules.{term_amount, lesser, greater, spread_term, straddle_term, protective_put_term, tracked_term, conversion_term, reconversion_term};

use crate::{RuleTerm, TermAmount};
use rules_amounts::{Cents, ContractSize, UnitAmount};
use rules_market::{Market, tracked_amount};
use rules_positions::Record;
use rules_pricing::{Contract, Right, excess};

/// The lesser of two, the first where they are equal.
fn lesser(first: TermAmount, second: TermAmount) -> TermAmount
    ensures { result ≡ lesser first second }
{
    if second.parts < first.parts {
        second
    } else {
        first
    }
}

/// The greater of two, the first where they are equal.
fn greater(first: TermAmount, second: TermAmount) -> TermAmount
    ensures { result ≡ greater first second }
{
    if first.parts < second.parts {
        second
    } else {
        first
    }
}

/// A term that is an amount of each unit.
fn of_units(term: RuleTerm, size: ContractSize, unit: UnitAmount) -> TermAmount
    ensures { result ≡ term_amount term (pos (size.units * unit.parts)) }
{
    let parts = i128::from(size.times(unit));
    TermAmount { term, parts }
}

/// A term that is an amount of cents a unit.
fn of_cents(term: RuleTerm, size: ContractSize, cents: Cents) -> TermAmount
    ensures { result ≡ term_amount term (pos (contract size.units cents.amount)) }
{
    let parts = cents.parts();
    of_units(term, size, UnitAmount { parts })
}

/// A term that is a short option alone.
fn of_short<M: Market>(
    term: RuleTerm,
    contract: &Contract<M>,
    right: Right,
    option: &Record,
) -> TermAmount
    ensures { result ≡ term_amount term (pos (short_alone contract.now right (terms option.now))) }
{
    let parts = i128::from(contract.short_option(right, option));
    TermAmount { term, parts }
}

/// A spread.
pub(crate) fn spread_term<M: Market>(
    contract: &Contract<M>,
    right: Right,
    long: &Record,
    short: &Record,
) -> TermAmount
    ensures { result ≡ spread_term contract.now right (terms long.now) (terms short.now) }
{
    let apart = long.strike_cents().apart(short.strike_cents());
    lesser(
        of_short(RuleTerm::ShortOption, contract, right, short),
        of_cents(RuleTerm::StrikeDifference, contract.size, apart),
    )
}

/// A straddle.
pub(crate) fn straddle_term<M: Market>(
    contract: &Contract<M>,
    call: &Record,
    put: &Record,
) -> TermAmount
    ensures { result ≡ straddle_term contract.now (terms call.now) (terms put.now) }
{
    let of_call = of_short(RuleTerm::ShortCall, contract, Right::Call, call);
    let of_put = of_short(RuleTerm::ShortPut, contract, Right::Put, put);
    let excess = excess(put.strike_cents(), call.strike_cents());
    greater(
        greater(of_call, of_put),
        of_cents(RuleTerm::PutStrikeAboveCall, contract.size, excess),
    )
}

/// A protective put.
pub(crate) fn protective_put_term<M: Market>(contract: &Contract<M>, put: &Record) -> TermAmount
    ensures { result ≡ protective_put_term contract.now (terms put.now) }
{
    let held = contract.market.long_requirement();
    let paid = contract.market.price().parts() + put.price_cents().parts();
    let parts = paid.saturating_sub(put.strike_cents().parts());
    lesser(
        of_units(RuleTerm::LongUnits, contract.size, held),
        of_units(
            RuleTerm::PriceAndPremiumLessStrike,
            contract.size,
            UnitAmount { parts },
        ),
    )
}

/// The tracked amount; nothing where the market has no tracking rate.
fn tracked_term<M: Market>(contract: &Contract<M>) -> TermAmount
    ensures { result ≡ tracked_term contract.now }
{
    let parts = tracked_amount(contract.market).map_or(0, |unit| unit.parts);
    of_units(RuleTerm::TrackedAmount, contract.size, UnitAmount { parts })
}

/// The difference of a conversion or of a reconversion.
fn difference(size: ContractSize, up: UnitAmount, down: UnitAmount) -> TermAmount
    ensures { result
        ≡ term_amount RuleTerm.ConversionDifference (pos size.units *ℤ
        (pos up.parts -ℤ pos down.parts)) }
{
    TermAmount {
        term: RuleTerm::ConversionDifference,
        parts: i128::from(size.difference(up, down)),
    }
}

/// A conversion.
pub(crate) fn conversion_term<M: Market>(
    contract: &Contract<M>,
    put: &Record,
    call: &Record,
    futures: &Record,
) -> TermAmount
    ensures { result
        ≡ conversion_term contract.now (terms put.now) (terms call.now) (terms futures.now) }
{
    let lesser_strike = put.strike_cents().min(call.strike_cents());
    let up = futures.price_cents().plus(put.price_cents());
    let down = lesser_strike.plus(call.price_cents());
    greater(tracked_term(contract), difference(contract.size, up, down))
}

/// A reconversion.
pub(crate) fn reconversion_term<M: Market>(
    contract: &Contract<M>,
    put: &Record,
    call: &Record,
    futures: &Record,
) -> TermAmount
    ensures { result
        ≡ reconversion_term contract.now (terms put.now) (terms call.now) (terms futures.now) }
{
    let greater_strike = put.strike_cents().max(call.strike_cents());
    let up = greater_strike.plus(call.price_cents());
    let down = futures.price_cents().plus(put.price_cents());
    greater(tracked_term(contract), difference(contract.size, up, down))
}
