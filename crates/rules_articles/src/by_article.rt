//! What a set requires, by its article.
ghost use Rattle.std.specs.Prelude.{◌≡◌, map};
ghost use Rattle.rules_positions.specs.Records.{terms};
ghost use Rattle.rules_articles.specs.ByArticle.{requirement_of};

use crate::articles::{ConversionLegs, conversion, protective_put, receipt_call, spread, straddle};
use crate::{Article, ArticleFault, Leg};
use rules_market::Market;
use rules_positions::{Record, Side};
use rules_pricing::{Contract, Right};

/// What a set requires under an article, or why it is refused; a leg too few or too many is a wrong leg.
/// A match: each article takes its own legs.
pub fn set_requirement<M: Market>(
    contract: &Contract<M>,
    article: Article,
    legs: &[Record],
) -> Result<u64, ArticleFault>
    ensures { result ≡ requirement_of contract.now article (map terms legs.now) }
{
    match (article, legs) {
        (Article::CallSpread, [long, short]) => spread(contract, Right::Call, long, short),
        (Article::PutSpread, [long, short]) => spread(contract, Right::Put, long, short),
        (Article::Straddle, [call, put]) => straddle(contract, call, put),
        (Article::ProtectivePut, [put, units]) => protective_put(contract, put, units),
        (Article::Conversion, [put, call, futures]) => {
            conversion(
                contract,
                &ConversionLegs {
                    side: Side::Long,
                    put,
                    call,
                    futures,
                },
            )
        }
        (Article::Reconversion, [put, call, futures]) => {
            conversion(
                contract,
                &ConversionLegs {
                    side: Side::Short,
                    put,
                    call,
                    futures,
                },
            )
        }
        (Article::ReceiptCall, [call, receipt]) => receipt_call(call, receipt),
        (_, []) => Err(ArticleFault::WrongLeg(Leg::First)),
        (_, [_]) => Err(ArticleFault::WrongLeg(Leg::Second)),
        _ => Err(ArticleFault::WrongLeg(Leg::Third)),
    }
}
