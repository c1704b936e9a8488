//! A docket: one client's account in one underlying interest, over any book, and the calls on it.
#![tactic(auto)]

ghost use Rattle.std.specs.Prelude.{◌≡◌};
ghost use Rattle.calls_docket.specs.Refusals.{refusal_number, refusal_details, from_record, from_book, from_certify};

mod calls;
mod docket;
mod finding;
mod judging;
mod looking;
mod texts;

use certificate_certify::CertifyFault;
use certificate_fairness::Breach;
pub use docket::Docket;
use rules_articles::Leg;
use rules_books::BookFault;
use rules_positions::{Field, RecordFault};

/// Why a call is refused.
#[derive(Clone, Copy, Debug, PartialEq, Eq)]
pub enum Refusal {
    SizeOutOfRange,
    FieldOutOfRange(Field),
    AlreadyHeld(usize),
    PositionsFull,
    NoSuchArticle,
    SetsOutOfRange,
    NoSuchPosition(Leg),
    PositionTwice(Leg),
    BookRefuses(BookFault),
    UnitsShort(Leg),
    ClaimsFull,
    ClaimTooLarge,
    NoSuchClaim,
    MoreThanClaimed,
    NotOneEach { given: usize, held: usize },
    BeyondLimit(usize),
    Unfair(Breach),
}

/// What is returned with a refusal's number; a detail that it has not is 0.
/// The file format gives each refusal four.
#[derive(Clone, Copy, Debug, Default, PartialEq, Eq)]
pub struct Details {
    pub one: usize,
    pub two: usize,
    pub three: usize,
    pub four: usize,
}

impl From<RecordFault> for Refusal {
    ghost from_gives = { λ x y. y ≡ from_record x };

    fn from(value: RecordFault) -> Refusal
        ensures { result ≡ from_record value }
    {
        match value {
            RecordFault::OutOfRange(field) => Refusal::FieldOutOfRange(field),
        }
    }
}

impl From<BookFault> for Refusal {
    ghost from_gives = { λ x y. y ≡ from_book x };

    fn from(value: BookFault) -> Refusal
        ensures { result ≡ from_book value }
    {
        Refusal::BookRefuses(value)
    }
}

impl From<CertifyFault> for Refusal {
    ghost from_gives = { λ x y. y ≡ from_certify x };

    fn from(value: CertifyFault) -> Refusal
        ensures { result ≡ from_certify value }
    {
        match value {
            CertifyFault::NotOneEach { given, held } => Refusal::NotOneEach { given, held },
            CertifyFault::BeyondLimit(position) => Refusal::BeyondLimit(position),
            CertifyFault::Unfair(breach) => Refusal::Unfair(breach),
        }
    }
}

impl Refusal {
    /// The number by which the refusal is known, which the file format fixes.
    pub fn number(self) -> u8
        ensures { result ≡ refusal_number self }
    {
        match self {
            Refusal::SizeOutOfRange => 1,
            Refusal::FieldOutOfRange(_) => 2,
            Refusal::AlreadyHeld(_) => 3,
            Refusal::PositionsFull => 4,
            Refusal::NoSuchArticle => 5,
            Refusal::SetsOutOfRange => 6,
            Refusal::NoSuchPosition(_) => 7,
            Refusal::PositionTwice(_) => 8,
            Refusal::BookRefuses(_) => 9,
            Refusal::UnitsShort(_) => 10,
            Refusal::ClaimsFull => 11,
            Refusal::ClaimTooLarge => 12,
            Refusal::NoSuchClaim => 13,
            Refusal::MoreThanClaimed => 14,
            Refusal::NotOneEach { .. } => 15,
            Refusal::BeyondLimit(_) => 16,
            Refusal::Unfair(_) => 17,
        }
    }

    /// What is returned with the number.
    pub fn details(self) -> Details
        ensures { result ≡ refusal_details self }
    {
        match self {
            Refusal::FieldOutOfRange(field) => Details {
                one: usize::from(field.number()),
                ..Details::default()
            },
            Refusal::AlreadyHeld(position) | Refusal::BeyondLimit(position) => Details {
                one: position,
                ..Details::default()
            },
            Refusal::NoSuchPosition(leg) | Refusal::PositionTwice(leg) | Refusal::UnitsShort(leg) =>
                Details {
                    one: usize::from(leg.number()),
                    ..Details::default()
                },
            Refusal::BookRefuses(fault) => Details {
                one: usize::from(fault.cause),
                two: usize::from(fault.leg_number()),
                ..Details::default()
            },
            Refusal::NotOneEach { given, held } => Details {
                one: given,
                two: held,
                ..Details::default()
            },
            Refusal::Unfair(Breach::Alone { position }) => Details {
                two: usize::from(position),
                ..Details::default()
            },
            Refusal::Unfair(Breach::Set { article, legs }) => Details {
                one: usize::from(article),
                two: usize::from(legs.first),
                three: usize::from(legs.second),
                four: legs.third.map_or(0, usize::from),
            },
            Refusal::SizeOutOfRange
            | Refusal::PositionsFull
            | Refusal::NoSuchArticle
            | Refusal::SetsOutOfRange
            | Refusal::ClaimsFull
            | Refusal::ClaimTooLarge
            | Refusal::NoSuchClaim
            | Refusal::MoreThanClaimed => Details::default(),
        }
    }
}
