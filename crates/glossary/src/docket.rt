//! Worked figures of the sample docket.
ghost use Rattle.std.specs.Prelude.{◌≡◌, ◌≤◌, List, IfOk, string_bytes};
ghost use Rattle.page_money.specs.Amounts.{dollars_amount};
ghost use Rattle.certificate_pairing.specs.Pairing.{Set, IsFair, IsLawfulPairing, mark, cost};
ghost use Rattle.certificate_pairing.specs.Claims.{total, pairing_of, FairIn, LawfulIn, cost_in};
ghost use Rattle.rules_priced_examples.specs.Examples.{sample_size};
ghost use Rattle.glossary.specs.Sample.{tables, tally, marks, sample_docket};
ghost use Rattle.glossary.specs.Dockets.{free_units_figure, total_figure, mark_figure, fair_figure, floor_figure, lawful_pairing_figure, least_figure};

use crate::words::Named;
use crate::worked;
use page_money::Dollars;
use std::alloc::{AllocError, Global};

/// The mark of a position of the sample docket.
fn marked(position: u64) -> Dollars
    ensures { dollars_amount result ≡ mark marks position }
{
    Dollars::from(i128::from(worked::mark(position)))
}

/// Free units: of each position.
pub(crate) fn free_units(heap: Global) -> Result<String, AllocError>
    ensures { IfOk result (λ t. string_bytes t ≡ free_units_figure) }
{
    let units = worked::free_units(1);
    let puts = worked::free_units(2);
    let calls = worked::free_units(3);
    format!(in heap;
        "The sample docket: 300 units long, two long puts of strike 48.00 at 1.50 and one short call of\n    strike 55.00 at 1.20, with two protective puts claimed. Free: {units} units, {puts} puts, {calls} call."
    )
}

/// Total: with its claims.
pub(crate) fn total(heap: Global) -> Result<String, AllocError>
    ensures { IfOk result (λ t. string_bytes t ≡ total_figure) }
{
    let total = Dollars::from(worked::total());
    format!(in heap; "The sample docket, as claimed: {total}.")
}

/// Mark: of each position.
pub(crate) fn mark(heap: Global) -> Result<String, AllocError>
    ensures { IfOk result (λ t. string_bytes t ≡ mark_figure) }
{
    let unit = marked(1);
    let put = marked(2);
    let call = marked(3);
    format!(in heap;
        "In the sample docket: {unit} for a unit, {put} for a put, {call} for the call."
    )
}

/// Fair: the marks, and those with 0 for the put.
pub(crate) fn fair(heap: Global) -> Result<String, AllocError>
    ensures text { IfOk result (λ t. string_bytes t ≡ fair_figure) }
    ensures fair { FairIn sample_docket marks }
{
    let floor = Dollars::from(worked::certificate().floor);
    let breach = Named(worked::breach());
    format!(in heap;
        "Those marks are fair, and certify grants {floor} as their floor. With 0.00 for a put they are\n    not, and certify names {breach}."
    )
}

/// Floor: of the marks.
pub(crate) fn floor(heap: Global) -> Result<String, AllocError>
    ensures { IfOk result (λ t. string_bytes t ≡ floor_figure) }
{
    let unit = marked(1);
    let put = marked(2);
    let call = marked(3);
    let sum = Dollars::from(worked::certificate().floor);
    format!(in heap; "{unit} for 300 units, {put} for two puts and {call} for one call: {sum}.")
}

/// Lawful pairing: that of the claims.
pub(crate) fn lawful_pairing(heap: Global) -> Result<String, AllocError>
    ensures text { IfOk result (λ t. string_bytes t ≡ lawful_pairing_figure) }
    ensures lawful { LawfulIn sample_docket (pairing_of tally.claims) }
{
    let cost = Dollars::from(worked::total());
    format!(in heap; "The two protective puts of the sample docket are one. It costs {cost}.")
}

/// Least: what the floor says of the total. No lawful pairing costs less than that.
pub(crate) fn least(heap: Global) -> Result<String, AllocError>
    ensures text { IfOk result (λ t. string_bytes t ≡ least_figure) }
    ensures least { (xs : List Set) → LawfulIn sample_docket xs
        → total sample_docket ≤ cost_in sample_docket xs }
{
    let whole = Dollars::from(worked::total());
    let floor = Dollars::from(worked::certificate().floor);
    let verdict = worked::verdict();
    format!(in heap;
        "The sample docket's total is {whole}, and the floor of its marks {floor}: {verdict}."
    )
}
