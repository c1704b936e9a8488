//! What is worked out in the market of a docket's sheet: the parts of an option, and the term that gives the requirement of a claim's set.
ghost use Rattle.std.specs.Prelude.{◌≡◌, []};
ghost use Rattle.rules_positions.specs.Records.{terms};
ghost use Rattle.page_figures.specs.Shown.{claim_term, quote_of, ShowsOption};
ghost use Rattle.rules_pricing.specs.Priced.{contracts_of};
ghost use Rattle.certificate_pairing.specs.Dockets.{holding, docket_of, docket_by};

use calls_docket::Docket;
use certificate_pairing::{Claim, at};
use page_workings::{OptionWorking, TermAmount, option_working, ruling_term};
use rules_amounts::ContractSize;
use rules_articles::Article;
use rules_books::Sheet;
use rules_market::Market;
use rules_positions::Record;
use rules_pricing::{Contract, Right};

/// In one market; none where the article refuses the set.
fn term_in<M: Market>(
    market: &M,
    size: ContractSize,
    held: &[Record],
    article: Article,
    claim: &Claim,
) -> Option<TermAmount>
    ensures { let d = docket_of (M.quote market.now) size.units (holding held.now []) in
        result ≡ claim_term d article claim.now }
{
    let contract = Contract { market, size };
    let first = at(held, claim.first);
    let second = at(held, claim.second);
    if claim.third == 0 {
        return ruling_term(&contract, article, &[first, second]).ok();
    }
    ruling_term(&contract, article, &[first, second, at(held, claim.third)]).ok()
}

/// In the market of the docket's sheet; none where the article refuses the set.
pub fn claim_term(docket: &Docket<Sheet>, article: Article, claim: &Claim) -> Option<TermAmount>
    ensures { result ≡ claim_term (docket_by quote_of docket.now) article claim.now }
{
    let size = docket.size();
    let held = docket.positions();
    match docket.book() {
        Sheet::Share(market) => term_in(market, size, held, article, claim),
        Sheet::Currency(market) => term_in(market, size, held, article, claim),
    }
}

/// The parts of an option.
pub fn working_of(docket: &Docket<Sheet>, right: Right, option: &Record) -> OptionWorking
    ensures { ShowsOption (contracts_of (quote_of docket.now.book) docket.now.size)
        right (terms option.now) result }
{
    let size = docket.size();
    match docket.book() {
        Sheet::Share(market) => option_working(&Contract { market, size }, right, option),
        Sheet::Currency(market) => option_working(&Contract { market, size }, right, option),
    }
}
