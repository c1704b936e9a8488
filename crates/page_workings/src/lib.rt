//! What a requirement is made of: the parts of an option's, and the term of an article's rule that gave a set's.
//! Where two amounts are equal, the first of them in the order of the rule is named.
#![tactic(auto)]

mod options;
mod rules;
mod terms;

pub use options::{option_working, right_of, short_working};
use rules_amounts::Cents;
pub use terms::ruling_term;

/// How much of a time value counts: all of it, or half of it.
#[derive(Clone, Copy, Debug, PartialEq, Eq)]
pub enum Portion {
    Whole,
    Half,
}

/// The amount of a short option that is its requirement: the first, before the floor, or the floor amount; the first where they are equal.
#[derive(Clone, Copy, Debug, PartialEq, Eq)]
pub enum Ruling {
    BeforeFloor,
    FloorAmount,
}

/// The two amounts of a short option, in parts, and the one that rules. The first may be negative.
#[derive(Clone, Copy, Debug, PartialEq, Eq)]
pub struct ShortWorking {
    pub before_floor: i64,
    pub floor_amount: u64,
    pub ruling: Ruling,
}

/// What an option's requirement is made of: amounts for one unit, and for a short option its two amounts for a contract.
#[derive(Clone, Copy, Debug, PartialEq, Eq)]
pub struct OptionWorking {
    pub in_the_money: Cents,
    pub out_of_the_money: Cents,
    pub time_value: Cents,
    pub portion: Portion,
    /// In parts.
    pub counted_time_value: u64,
    pub short: Option<ShortWorking>,
}

/// A term of an article's rule, by its name.
#[derive(Clone, Copy, Debug, PartialEq, Eq)]
pub enum RuleTerm {
    /// The short option of a spread, alone.
    ShortOption,
    StrikeDifference,
    /// The options of a straddle, each alone, and the put's strike above the call's.
    ShortCall,
    ShortPut,
    PutStrikeAboveCall,
    /// The long units of a protective put, and the price and the premium less the strike.
    LongUnits,
    PriceAndPremiumLessStrike,
    /// The tracked amount and the difference of a conversion or of a reconversion.
    TrackedAmount,
    ConversionDifference,
    NothingRequired,
}

/// A term, and what it comes to for a contract, in parts; a difference may be negative.
#[derive(Clone, Copy, Debug, PartialEq, Eq)]
pub struct TermAmount {
    pub term: RuleTerm,
    pub parts: i128,
}
