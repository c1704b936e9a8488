//! Worked figures of sets.
ghost use Rattle.std.specs.Prelude.{◌≡◌, IfOk, string_bytes};
ghost use Rattle.glossary.specs.Sets.{set_figure, spread_figure, straddle_figure, protective_put_figure, conversion_figure, reconversion_figure, receipt_call_figure};

use crate::words::{Price, Required};
use crate::worked;
use certificate_pairing::set_takes;
use rules_amounts::ContractSize;
use rules_market::Market;
use rules_positions::Kind;
use rules_pricing::Contract;
use std::alloc::{AllocError, Global};

/// Set: what it takes of a put and of units.
pub(crate) fn set(heap: Global, size: ContractSize) -> Result<String, AllocError>
    ensures { IfOk result (λ t. string_bytes t ≡ set_figure size.units) }
{
    let puts = set_takes(size, Kind::Put);
    let units = set_takes(size, Kind::Units);
    format!(in heap; "A set of a put and units takes {puts} put and {units} units.")
}

/// Spread: of calls.
pub(crate) fn spread<M: Market>(heap: Global, contract: &Contract<M>) -> Result<String, AllocError>
    ensures { IfOk result (λ t. string_bytes t ≡ spread_figure contract.now) }
{
    let amount = Required(worked::spread(contract));
    format!(in heap;
        "A long call of strike 55.00 at 1.20, a short call of strike 50.00 at 3.00: {amount}."
    )
}

/// Straddle: a call and a put.
pub(crate) fn straddle<M: Market>(
    heap: Global,
    contract: &Contract<M>,
) -> Result<String, AllocError>
    ensures { IfOk result (λ t. string_bytes t ≡ straddle_figure contract.now) }
{
    let amount = Required(worked::straddle(contract));
    format!(in heap;
        "A short call of strike 55.00 at 1.20, a short put of strike 52.00 at 3.50: {amount}."
    )
}

/// Protective put: a put and units.
pub(crate) fn protective_put<M: Market>(
    heap: Global,
    contract: &Contract<M>,
) -> Result<String, AllocError>
    ensures { IfOk result (λ t. string_bytes t ≡ protective_put_figure contract.now) }
{
    let size = contract.size.units;
    let price = Price(contract.market.price());
    let amount = Required(worked::protective_put(contract));
    format!(in heap; "A long put of strike 48.00 at 1.50, {size} units at {price}: {amount}.")
}

/// Conversion: a put, a call and futures.
pub(crate) fn conversion<M: Market>(
    heap: Global,
    contract: &Contract<M>,
) -> Result<String, AllocError>
    ensures { IfOk result (λ t. string_bytes t ≡ conversion_figure contract.now) }
{
    let amount = Required(worked::conversion(contract));
    format!(in heap;
        "A put of strike 50.00 at 1.80, a call of strike 51.00 at 1.40, futures at 50.60: {amount}."
    )
}

/// Reconversion: a put, a call and futures, each on the other side.
pub(crate) fn reconversion<M: Market>(
    heap: Global,
    contract: &Contract<M>,
) -> Result<String, AllocError>
    ensures { IfOk result (λ t. string_bytes t ≡ reconversion_figure contract.now) }
{
    let amount = Required(worked::reconversion(contract));
    format!(in heap;
        "A put of strike 50.00 at 1.80, a call of strike 51.00 at 1.40, futures at 50.60: {amount}."
    )
}

/// Call on an escrow receipt: a call and a receipt.
pub(crate) fn receipt_call(heap: Global) -> Result<String, AllocError>
    ensures { IfOk result (λ t. string_bytes t ≡ receipt_call_figure) }
{
    let amount = Required(worked::receipt_call());
    format!(in heap; "On a currency, a short call of strike 55.00 at 1.20 and a receipt: {amount}.")
}
