//! Sets under the articles, and what a set takes.
ghost use Rattle.std.specs.Prelude.{◌≡◌};
ghost use Rattle.rules_positions.specs.declared.Side.TheVariants.{Long, Short};
ghost use Rattle.rules_positions.specs.declared.Kind.TheVariants.{Units, Call, Put, Futures, Receipt};
ghost use Rattle.rules_pricing.specs.declared.Right.TheVariants as right;
ghost use Rattle.rules_articles.specs.Articles.{spread, straddle, protective_put, conversion, reconversion, receipt_call};
ghost use Rattle.rules_priced_examples.specs.Examples.{held};

use super::one;
use rules_articles::{ArticleFault, ConversionLegs};
use rules_market::Market;
use rules_positions::{Kind, Side};
use rules_pricing::{Contract, Right};

/// Spread: a long call of strike 55.00 at 1.20, a short call of strike 50.00 at 3.00.
pub(crate) fn spread<M: Market>(contract: &Contract<M>) -> Result<u64, ArticleFault>
    ensures { result
        ≡ spread contract.now right.Call (held Long Call 5500 100 120)
        (held Short Call 5000 100 300) }
{
    let long = one(Side::Long, Kind::Call, 5_500, 100, 120);
    let short = one(Side::Short, Kind::Call, 5_000, 100, 300);
    rules_articles::spread(contract, Right::Call, &long, &short)
}

/// Straddle: a short call of strike 55.00 at 1.20, a short put of strike 52.00 at 3.50.
pub(crate) fn straddle<M: Market>(contract: &Contract<M>) -> Result<u64, ArticleFault>
    ensures { result
        ≡ straddle contract.now (held Short Call 5500 100 120) (held Short Put 5200 100 350) }
{
    let call = one(Side::Short, Kind::Call, 5_500, 100, 120);
    let put = one(Side::Short, Kind::Put, 5_200, 100, 350);
    rules_articles::straddle(contract, &call, &put)
}

/// Protective put: a long put of strike 48.00 at 1.50, long units.
pub(crate) fn protective_put<M: Market>(contract: &Contract<M>) -> Result<u64, ArticleFault>
    ensures { result
        ≡ protective_put contract.now (held Long Put 4800 100 150) (held Long Units 0 0 0) }
{
    let put = one(Side::Long, Kind::Put, 4_800, 100, 150);
    let units = one(Side::Long, Kind::Units, 0, 0, 0);
    rules_articles::protective_put(contract, &put, &units)
}

/// Conversion: a long put of strike 50.00 at 1.80, a short call of strike 51.00 at 1.40, long futures at 50.60.
pub(crate) fn conversion<M: Market>(contract: &Contract<M>) -> Result<u64, ArticleFault>
    ensures { result
        ≡ conversion contract.now (held Long Put 5000 100 180) (held Short Call 5100 100 140)
        (held Long Futures 0 100 5060) }
{
    let legs = ConversionLegs {
        side: Side::Long,
        put: &one(Side::Long, Kind::Put, 5_000, 100, 180),
        call: &one(Side::Short, Kind::Call, 5_100, 100, 140),
        futures: &one(Side::Long, Kind::Futures, 0, 100, 5_060),
    };
    rules_articles::conversion(contract, &legs)
}

/// Reconversion: a short put of strike 50.00 at 1.80, a long call of strike 51.00 at 1.40, short futures at 50.60.
pub(crate) fn reconversion<M: Market>(contract: &Contract<M>) -> Result<u64, ArticleFault>
    ensures { result
        ≡ reconversion contract.now (held Short Put 5000 100 180) (held Long Call 5100 100 140)
        (held Short Futures 0 100 5060) }
{
    let legs = ConversionLegs {
        side: Side::Short,
        put: &one(Side::Short, Kind::Put, 5_000, 100, 180),
        call: &one(Side::Long, Kind::Call, 5_100, 100, 140),
        futures: &one(Side::Short, Kind::Futures, 0, 100, 5_060),
    };
    rules_articles::conversion(contract, &legs)
}

/// Call on an escrow receipt: a short call of strike 55.00 at 1.20, a receipt.
pub(crate) fn receipt_call() -> Result<u64, ArticleFault>
    ensures { result ≡ receipt_call (held Short Call 5500 100 120) (held Long Receipt 0 0 0) }
{
    let call = one(Side::Short, Kind::Call, 5_500, 100, 120);
    let receipt = one(Side::Long, Kind::Receipt, 0, 0, 0);
    rules_articles::receipt_call(&call, &receipt)
}
