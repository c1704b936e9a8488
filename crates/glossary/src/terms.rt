//! The terms of the margin rules, in the order of the rules, and a sentence for each.
ghost use Rattle.std.specs.Prelude.{◌≡◌};
ghost use Rattle.glossary.specs.Terms.{all_terms, name_text, sentence_text};

/// A term of the margin rules.
#[derive(Clone, Copy)]
pub enum Term {
    Part,
    Requirement,
    LongRequirement,
    ShortRequirement,
    InTheMoney,
    OutOfTheMoney,
    TimeValue,
    CountedTimeValue,
    LongOption,
    ShortOption,
    FloorAmount,
    Futures,
    EscrowReceipt,
    Set,
    Spread,
    Straddle,
    ProtectivePut,
    Conversion,
    Reconversion,
    ReceiptCall,
    FreeUnits,
    Total,
    Mark,
    Fair,
    Floor,
    LawfulPairing,
    Least,
}

impl Term {
    /// All terms, in the order of the rules.
    pub(crate) fn all() -> [Term; 27]
        ensures { result ≡ all_terms }
    {
        [
            Term::Part,
            Term::Requirement,
            Term::LongRequirement,
            Term::ShortRequirement,
            Term::InTheMoney,
            Term::OutOfTheMoney,
            Term::TimeValue,
            Term::CountedTimeValue,
            Term::LongOption,
            Term::ShortOption,
            Term::FloorAmount,
            Term::Futures,
            Term::EscrowReceipt,
            Term::Set,
            Term::Spread,
            Term::Straddle,
            Term::ProtectivePut,
            Term::Conversion,
            Term::Reconversion,
            Term::ReceiptCall,
            Term::FreeUnits,
            Term::Total,
            Term::Mark,
            Term::Fair,
            Term::Floor,
            Term::LawfulPairing,
            Term::Least,
        ]
    }

    /// The term itself.
    pub(crate) fn name(self) -> &'static str
        ensures { result.now ≡ name_text self }
    {
        match self {
            Term::Part => "part",
            Term::Requirement => "requirement",
            Term::LongRequirement => "long requirement",
            Term::ShortRequirement => "short requirement",
            Term::InTheMoney => "in the money",
            Term::OutOfTheMoney => "out of the money",
            Term::TimeValue => "time value",
            Term::CountedTimeValue => "counted time value",
            Term::LongOption => "long option",
            Term::ShortOption => "short option",
            Term::FloorAmount => "floor amount",
            Term::Futures => "futures",
            Term::EscrowReceipt => "escrow receipt",
            Term::Set => "set",
            Term::Spread => "spread",
            Term::Straddle => "straddle",
            Term::ProtectivePut => "protective put",
            Term::Conversion => "conversion",
            Term::Reconversion => "reconversion",
            Term::ReceiptCall => "call on an escrow receipt",
            Term::FreeUnits => "free units",
            Term::Total => "total",
            Term::Mark => "mark",
            Term::Fair => "fair",
            Term::Floor => "floor",
            Term::LawfulPairing => "lawful pairing",
            Term::Least => "least",
        }
    }

    /// Its sentence, in lines of at most 96 characters.
    pub(crate) fn sentence(self) -> &'static str
        ensures { result.now ≡ sentence_text self }
    {
        match self {
            Term::Part =>
                "One ten-thousandth of a cent. Cents times a rate in basis points are parts, so nothing is\nrounded.",
            Term::Requirement =>
                "What must stand as margin for a position, a set of positions or a whole docket.",
            Term::LongRequirement => "What one unit of the underlying held long requires.",
            Term::ShortRequirement => "What one unit of the underlying held short requires.",
            Term::InTheMoney =>
                "What exercise would bring now, for one unit: the price above the strike for a call, the strike\nabove the price for a put, and 0 where it is not above.",
            Term::OutOfTheMoney =>
                "How far exercise is from bringing anything, for one unit: the strike above the price for a call,\nthe price above the strike for a put, and 0 where it is not above.",
            Term::TimeValue =>
                "The premium above the amount in the money, and 0 where it is not above.",
            Term::CountedTimeValue =>
                "The time value of a long option counts whole, and half of it counts from 270 days to expiry up.",
            Term::LongOption =>
                "It requires its counted time value, and the lesser of the long requirement of a unit and the\namount in the money, for each unit of the contract.",
            Term::ShortOption =>
                "It requires the greater of two amounts, for each unit of the contract: the premium and the\noption rate of the price less the amount out of the money; or its floor amount.",
            Term::FloorAmount =>
                "The premium and the floor rate, of the price for a call and of the strike for a put: a short\noption never requires less.",
            Term::Futures =>
                "They require the futures rate of the daily settlement, or all of it where there is no such rate.",
            Term::EscrowReceipt =>
                "A receipt for the underlying held in escrow. It requires nothing.",
            Term::Set =>
                "What an article pairs: as many units of the underlying as a contract has, and one contract of\nany other leg.",
            Term::Spread =>
                "A long and a short option of one kind, the short one expiring no later. It requires the lesser\nof the short option alone and the difference of the strikes.",
            Term::Straddle =>
                "A short call and a short put. It requires the greatest of the call alone, the put alone, and the\nput's strike above the call's.",
            Term::ProtectivePut =>
                "A long put and long units. It requires the lesser of the units' long requirement and the price\nand the premium less the strike.",
            Term::Conversion =>
                "A long put, a short call and long futures that expire together. It requires the greater of the\ntracking rate of the price, and the settlement less the lesser strike with the put's premium\nadded and the call's taken off.",
            Term::Reconversion =>
                "A short put, a long call and short futures that expire together. It requires the greater of the\ntracking rate of the price, and the greater strike less the settlement with the call's premium\nadded and the put's taken off.",
            Term::ReceiptCall =>
                "A short call and an escrow receipt, on a currency. It requires nothing.",
            Term::FreeUnits => "The units entered of a position that no claim takes.",
            Term::Total =>
                "What the whole docket requires: its claims at the requirements of their sets, and all free units\nalone.",
            Term::Mark =>
                "An amount for one unit or contract of a position, in parts, which may be negative.",
            Term::Fair =>
                "Marks are fair where there is one for each position, each within its limit and at most its\nposition's requirement alone, and the marks of what a set takes are never above the set's\nrequirement.",
            Term::Floor =>
                "The sum of mark times units entered, over all positions. Of fair marks it lies under the cost of\nevery lawful pairing.",
            Term::LawfulPairing =>
                "Allowed sets, each of distinct positions, that together take no more of any position than its\nunits entered. It costs the requirements of its sets and all unused units alone.",
            Term::Least =>
                "The word for a total that meets the floor of fair marks: no lawful pairing of the positions\ncosts less.",
        }
    }
}
