//! Worked figures of amounts and of positions alone.
ghost use Rattle.std.specs.Prelude.{◌≡◌, IfOk, string_bytes};
ghost use Rattle.glossary.specs.Alone.{part_figure, requirement_figure, long_requirement_figure, short_requirement_figure, futures_figure, escrow_receipt_figure};

use crate::words::{Parts, Price};
use crate::worked;
use rules_market::Market;
use rules_pricing::Contract;
use std::alloc::{AllocError, Global};

/// Part: the floor rate of 1.25.
pub(crate) fn part<M: Market>(heap: Global, market: &M) -> Result<String, AllocError>
    ensures { IfOk result (λ t. string_bytes t ≡ part_figure (M.quote market.now)) }
{
    let rate = market.floor_rate().basis_points;
    let parts = worked::part(market);
    let amount = Parts(parts);
    format!(in heap;
        "Of 1.25, the floor rate of {rate} basis points: {parts} parts, which are {amount}."
    )
}

/// Requirement: a short call alone.
pub(crate) fn requirement<M: Market>(
    heap: Global,
    contract: &Contract<M>,
) -> Result<String, AllocError>
    ensures { IfOk result (λ t. string_bytes t ≡ requirement_figure contract.now) }
{
    let size = contract.size.units;
    let price = Price(contract.market.price());
    let amount = Parts(worked::requirement(contract));
    format!(in heap; "A short call of strike 55.00 at 1.20, on {size} units at {price}: {amount}.")
}

/// Long requirement: a unit held long.
pub(crate) fn long_requirement<M: Market>(heap: Global, market: &M) -> Result<String, AllocError>
    ensures { IfOk result (λ t. string_bytes t ≡ long_requirement_figure (M.quote market.now)) }
{
    let price = Price(market.price());
    let amount = Parts(worked::long_requirement(market));
    format!(in heap; "A unit at {price}: {amount}.")
}

/// Short requirement: a unit held short.
pub(crate) fn short_requirement<M: Market>(heap: Global, market: &M) -> Result<String, AllocError>
    ensures { IfOk result (λ t. string_bytes t ≡ short_requirement_figure (M.quote market.now)) }
{
    let price = Price(market.price());
    let amount = Parts(worked::short_requirement(market));
    format!(in heap; "A unit at {price}: {amount}.")
}

/// Futures: a contract alone.
pub(crate) fn futures<M: Market>(heap: Global, contract: &Contract<M>) -> Result<String, AllocError>
    ensures { IfOk result (λ t. string_bytes t ≡ futures_figure contract.now) }
{
    let size = contract.size.units;
    let amount = Parts(worked::futures(contract));
    format!(in heap; "At a settlement of 50.60, on {size} units: {amount}.")
}

/// Escrow receipt: one alone.
pub(crate) fn escrow_receipt<M: Market>(
    heap: Global,
    contract: &Contract<M>,
) -> Result<String, AllocError>
    ensures { IfOk result (λ t. string_bytes t ≡ escrow_receipt_figure contract.now) }
{
    let amount = Parts(worked::escrow_receipt(contract));
    format!(in heap; "A receipt: {amount}.")
}
