//! The terms of the articles' rules, in words.
ghost use Rattle.std.specs.Prelude.{◌≡◌};
ghost use Rattle.page_statement.specs.Claims.{difference_words, term_words};

use page_workings::RuleTerm;
use rules_articles::Article;

/// The difference of a conversion or of a reconversion.
fn difference_words(article: Article) -> &'static str
    ensures { result.now ≡ difference_words article }
{
    match article {
        Article::Reconversion => "the difference of the reconversion",
        Article::CallSpread
        | Article::PutSpread
        | Article::Straddle
        | Article::ProtectivePut
        | Article::Conversion
        | Article::ReceiptCall => "the difference of the conversion",
    }
}

/// A term of an article's rule.
pub(crate) fn term_words(article: Article, term: RuleTerm) -> &'static str
    ensures { result.now ≡ term_words article term }
{
    match term {
        RuleTerm::ShortOption => "the short option alone",
        RuleTerm::StrikeDifference => "the difference of the strikes",
        RuleTerm::ShortCall => "the short call alone",
        RuleTerm::ShortPut => "the short put alone",
        RuleTerm::PutStrikeAboveCall => "the put's strike above the call's",
        RuleTerm::LongUnits => "the long units",
        RuleTerm::PriceAndPremiumLessStrike => "price and premium less the strike",
        RuleTerm::TrackedAmount => "the tracked amount",
        RuleTerm::ConversionDifference => difference_words(article),
        RuleTerm::NothingRequired => "nothing is required",
    }
}
