//! Positions alone.
ghost use Rattle.std.specs.Prelude.{◌≡◌, ◌*◌};
ghost use Rattle.rules_positions.specs.declared.Side.TheVariants.{Long, Short};
ghost use Rattle.rules_positions.specs.declared.Kind.TheVariants.{Call, Futures, Receipt};
ghost use Rattle.rules_pricing.specs.Alone.{units, futures, alone};
ghost use Rattle.rules_priced_examples.specs.Examples.{held};

use super::one;
use rules_amounts::Cents;
use rules_market::Market;
use rules_positions::{Kind, Side};
use rules_pricing::{Contract, units_alone};

/// Part: the floor rate of 1.25.
pub(crate) fn part<M: Market>(market: &M) -> u64
    ensures { result ≡ (M.quote market.now).floor * 125 }
{
    market.floor_rate().of(Cents { amount: 125 })
}

/// Requirement: a short call of strike 55.00 at 1.20.
pub(crate) fn requirement<M: Market>(contract: &Contract<M>) -> u64
    ensures { result ≡ alone contract.now (held Short Call 5500 100 120) }
{
    contract.alone(&one(Side::Short, Kind::Call, 5_500, 100, 120))
}

/// Long requirement.
pub(crate) fn long_requirement<M: Market>(market: &M) -> u64
    ensures { result ≡ units (M.quote market.now) Long }
{
    units_alone(market, Side::Long)
}

/// Short requirement.
pub(crate) fn short_requirement<M: Market>(market: &M) -> u64
    ensures { result ≡ units (M.quote market.now) Short }
{
    units_alone(market, Side::Short)
}

/// Futures: at a settlement of 50.60.
pub(crate) fn futures<M: Market>(contract: &Contract<M>) -> u64
    ensures { result ≡ futures contract.now 5060 }
{
    contract.futures_alone(Cents { amount: 5_060 })
}

/// Escrow receipt.
pub(crate) fn escrow_receipt<M: Market>(contract: &Contract<M>) -> u64
    ensures { result ≡ alone contract.now (held Long Receipt 0 0 0) }
{
    contract.alone(&one(Side::Long, Kind::Receipt, 0, 0, 0))
}
