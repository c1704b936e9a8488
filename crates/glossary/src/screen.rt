//! The screen: each term, its sentence, and its worked figure.
ghost use Rattle.std.specs.Prelude.{◌≡◌, IfOk, string_bytes};
ghost use Rattle.rules_market.specs.Share.{share_quote};
ghost use Rattle.rules_priced_examples.specs.Examples.{sample, sample_size};
ghost use Rattle.glossary.specs.Worked.{worked_text};
ghost use Rattle.glossary.specs.Screen.{term_text, screen_text};
ghost use Rattle.glossary.specs.Figures.{WorkedFigures};
ghost use Rattle.rules_pricing.specs.Priced.{contracts_of};

use crate::terms::Term;
use crate::{alone, docket, options, sets};
use rules_market::Market;
use rules_priced_examples::{sample_sheet, sample_size};
use rules_pricing::Contract;
use std::alloc::{AllocError, Global};

/// The worked figure of a term.
fn worked<M: Market>(heap: Global, contract: &Contract<M>, term: Term) -> Result<String, AllocError>
    ensures { IfOk result (λ t. string_bytes t ≡ worked_text contract.now term) }
{
    match term {
        Term::Part => alone::part(heap, contract.market),
        Term::Requirement => alone::requirement(heap, contract),
        Term::LongRequirement => alone::long_requirement(heap, contract.market),
        Term::ShortRequirement => alone::short_requirement(heap, contract.market),
        Term::InTheMoney => options::in_the_money(heap, contract.market),
        Term::OutOfTheMoney => options::out_of_the_money(heap, contract.market),
        Term::TimeValue => options::time_value(heap, contract.market),
        Term::CountedTimeValue => options::counted_time_value(heap, contract.market),
        Term::LongOption => options::long_option(heap, contract),
        Term::ShortOption => options::short_option(heap, contract),
        Term::FloorAmount => options::floor_amount(heap, contract),
        Term::Futures => alone::futures(heap, contract),
        Term::EscrowReceipt => alone::escrow_receipt(heap, contract),
        Term::Set => sets::set(heap, contract.size),
        Term::Spread => sets::spread(heap, contract),
        Term::Straddle => sets::straddle(heap, contract),
        Term::ProtectivePut => sets::protective_put(heap, contract),
        Term::Conversion => sets::conversion(heap, contract),
        Term::Reconversion => sets::reconversion(heap, contract),
        Term::ReceiptCall => sets::receipt_call(heap),
        Term::FreeUnits => docket::free_units(heap),
        Term::Total => docket::total(heap),
        Term::Mark => docket::mark(heap),
        Term::Fair => docket::fair(heap),
        Term::Floor => docket::floor(heap),
        Term::LawfulPairing => docket::lawful_pairing(heap),
        Term::Least => docket::least(heap),
    }
}

/// A term, its sentence, and its worked figure.
fn entry<M: Market>(heap: Global, contract: &Contract<M>, term: Term) -> Result<String, AllocError>
    ensures { IfOk result (λ t. string_bytes t ≡ term_text contract.now term) }
{
    let name = term.name();
    let sentence = term.sentence();
    let figure = worked(heap, contract, term)?;
    format!(in heap; "\n{name}\n{sentence}\n    {figure}\n")
}

/// All terms, on the sample sheet. Its figures are these numbers, by the definitions that the rules are priced by.
pub(crate) fn screen(heap: Global) -> Result<String, AllocError>
    ensures text { IfOk result (λ t. string_bytes t
        ≡ screen_text (contracts_of (share_quote sample) sample_size)) }
    ensures figures { WorkedFigures }
{
    let sheet = sample_sheet();
    let contract = Contract {
        market: &sheet,
        size: sample_size(),
    };
    let mut page = String::from_str(
        heap,
        "The terms of the margin rules, each with a worked figure. Amounts are in dollars. The figures are of\na share at 50.00, not reduced, with a floor rate of 5%, a futures rate of 20% and a tracking rate of\n1.5%, and of contracts of 100 units.\n",
    )?;
    for term in Term::all() {
        let text = entry(heap, &contract, term)?;
        page.push_str(text.as_str())?;
    }
    Ok(page)
}
