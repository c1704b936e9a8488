//! The term of an article's rule that gives a set's requirement.
ghost use Rattle.std.specs.Prelude.{◌≡◌, map, pos};
ghost use Rattle.std.specs.Result.{result_map_both};
ghost use Rattle.rules_positions.specs.Records.{terms};
ghost use Rattle.rules_articles.specs.ByArticle.{requirement_of};
ghost use Rattle.page_workings.specs.Rules.{nothing_required, rule_term, ruling_term};

use crate::rules::{
    conversion_term, protective_put_term, reconversion_term, spread_term, straddle_term,
};
use crate::{RuleTerm, TermAmount};
use rules_articles::{Article, ArticleFault, set_requirement};
use rules_market::Market;
use rules_positions::Record;
use rules_pricing::{Contract, Right};

/// Nothing is required.
fn nothing() -> TermAmount
    ensures { result ≡ nothing_required }
{
    TermAmount {
        term: RuleTerm::NothingRequired,
        parts: 0,
    }
}

/// The term of a set that its article does not refuse.
fn term_of<M: Market>(contract: &Contract<M>, article: Article, legs: &[Record]) -> TermAmount
    ensures { result ≡ rule_term contract.now article (map terms legs.now) }
{
    match (article, legs) {
        (Article::CallSpread, [long, short]) => spread_term(contract, Right::Call, long, short),
        (Article::PutSpread, [long, short]) => spread_term(contract, Right::Put, long, short),
        (Article::Straddle, [call, put]) => straddle_term(contract, call, put),
        (Article::ProtectivePut, [put, _]) => protective_put_term(contract, put),
        (Article::Conversion, [put, call, futures]) => {
            conversion_term(contract, put, call, futures)
        }
        (Article::Reconversion, [put, call, futures]) => {
            reconversion_term(contract, put, call, futures)
        }
        // A call on an escrow receipt requires nothing; another number of legs is refused.
        _ => nothing(),
    }
}

/// The term that gives a set's requirement, with what it comes to; or why the article refuses the set.
/// What it comes to is the requirement, and a set is refused exactly where the article refuses it.
pub fn ruling_term<M: Market>(
    contract: &Contract<M>,
    article: Article,
    legs: &[Record],
) -> Result<TermAmount, ArticleFault>
    ensures value { result ≡ ruling_term contract.now article (map terms legs.now) }
    ensures requirement { result_map_both (λ t. t.parts) (λ f. f) result
        ≡ result_map_both pos (λ f. f) (requirement_of contract.now article (map terms legs.now)) }
{
    set_requirement(contract, article, legs)?;
    Ok(term_of(contract, article, legs))
}
