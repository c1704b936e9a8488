//! The articles: what a set of positions requires together, and why a set is refused.
//! A set takes one contract of each leg, and as many units of the underlying as a contract has.
#![tactic(auto)]

ghost use Rattle.std.specs.Prelude.{◌≡◌};
ghost use Rattle.rules_positions.specs.Records.{terms};
ghost use Rattle.rules_articles.specs.ByArticle.{leg_count, matches_leg};
ghost use Rattle.rules_articles.specs.Causes.{article_cause_number, leg_number, cause_leg, from_market};

mod articles;
mod by_article;
mod conditions;
mod sets;

pub use articles::{ConversionLegs, conversion, protective_put, receipt_call, spread, straddle};
pub use by_article::set_requirement;
use conditions::is_a;
use rules_market::MarketFault;
use rules_positions::{Kind, Record, Side};

/// The articles by name.
#[derive(Clone, Copy, Debug, PartialEq, Eq)]
pub enum Article {
    CallSpread,
    PutSpread,
    Straddle,
    ProtectivePut,
    Conversion,
    Reconversion,
    ReceiptCall,
}

/// A leg of a set, in the article's order.
#[derive(Clone, Copy, Debug, PartialEq, Eq)]
pub enum Leg {
    First = 1,
    Second,
    Third,
}

/// Why an article refuses a set.
#[derive(Clone, Copy, Debug, PartialEq, Eq)]
pub enum ArticleFault {
    WrongLeg(Leg),
    WrongDays(Leg),
    Market(MarketFault),
}

impl From<MarketFault> for ArticleFault {
    ghost from_gives = { λ x y. y ≡ from_market x };

    fn from(value: MarketFault) -> ArticleFault
        ensures { result ≡ from_market value }
    {
        ArticleFault::Market(value)
    }
}

impl Article {
    /// How many legs a set under the article has.
    pub fn legs(self) -> u8
        ensures { result ≡ leg_count self }
    {
        match self {
            Article::Conversion | Article::Reconversion => 3,
            Article::CallSpread
            | Article::PutSpread
            | Article::Straddle
            | Article::ProtectivePut
            | Article::ReceiptCall => 2,
        }
    }

    /// Whether a position has the side and the kind that the article asks of a leg; none has where there is no such leg.
    /// What each article asks stands in docs/RULES.md, "The articles".
    pub fn matches_leg(self, leg: Leg, position: &Record) -> bool
        ensures { result ≡ matches_leg self leg (terms position.now) }
    {
        let (side, kind) = match (self, leg) {
            (Article::CallSpread, Leg::First) => (Side::Long, Kind::Call),
            (Article::CallSpread, Leg::Second) => (Side::Short, Kind::Call),
            (Article::PutSpread, Leg::First) => (Side::Long, Kind::Put),
            (Article::PutSpread, Leg::Second) => (Side::Short, Kind::Put),
            (Article::Straddle, Leg::First) => (Side::Short, Kind::Call),
            (Article::Straddle, Leg::Second) => (Side::Short, Kind::Put),
            (Article::ProtectivePut, Leg::First) => (Side::Long, Kind::Put),
            (Article::ProtectivePut, Leg::Second) => (Side::Long, Kind::Units),
            (Article::Conversion, Leg::First) => (Side::Long, Kind::Put),
            (Article::Conversion, Leg::Second) => (Side::Short, Kind::Call),
            (Article::Conversion, Leg::Third) => (Side::Long, Kind::Futures),
            (Article::Reconversion, Leg::First) => (Side::Short, Kind::Put),
            (Article::Reconversion, Leg::Second) => (Side::Long, Kind::Call),
            (Article::Reconversion, Leg::Third) => (Side::Short, Kind::Futures),
            (Article::ReceiptCall, Leg::First) => (Side::Short, Kind::Call),
            (Article::ReceiptCall, Leg::Second) => (Side::Long, Kind::Receipt),
            (_, Leg::Third) => return false,
        };
        is_a(side, kind, position)
    }
}

impl Leg {
    /// The leg's number, from 1.
    pub fn number(self) -> u8
        ensures { result ≡ leg_number self }
    {
        self as u8
    }
}

impl ArticleFault {
    /// The number by which the cause is known: replies give it, and the format of files fixes it.
    pub fn cause(self) -> u8
        ensures { result ≡ article_cause_number self }
    {
        match self {
            ArticleFault::WrongLeg(_) => 1,
            ArticleFault::WrongDays(_) => 2,
            ArticleFault::Market(MarketFault::NoTracking) => 3,
        }
    }

    /// The leg that is named, if one is.
    pub fn leg(self) -> Option<Leg>
        ensures { result ≡ cause_leg self }
    {
        match self {
            ArticleFault::WrongLeg(leg) | ArticleFault::WrongDays(leg) => Some(leg),
            ArticleFault::Market(MarketFault::NoTracking) => None,
        }
    }
}
