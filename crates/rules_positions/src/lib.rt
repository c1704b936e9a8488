//! A position as it is entered: six fields, each with its range for its kind.
#![tactic(auto)]

ghost use Rattle.std.specs.Prelude.{◌≡◌, ◌≤◌, Some};
ghost use Rattle.rules_positions.specs.Kinds.{other_side};
ghost use Rattle.rules_positions.specs.Ranges.{from_to, holds, strike_range, day_range, price_range, quantity_range};
ghost use Rattle.rules_positions.specs.Refusals.{field_number, record_fault_number, record_fault_detail, record_fault_text};

mod letters;
mod record;
mod records;
mod sent;
mod text;

pub use record::Record;
pub use records::quantity_range;
use std::error::Error;
use std::fmt;

/// Whether the client owns or owes.
#[derive(Clone, Copy, Debug, PartialEq, Eq)]
pub enum Side {
    Long,
    Short,
}

/// What is held: units of the underlying, an option on it, futures, or an escrow receipt for it.
#[derive(Clone, Copy, Debug, PartialEq, Eq)]
pub enum Kind {
    Units,
    Call,
    Put,
    Futures,
    Receipt,
}

/// A field of a record, by its number there.
#[derive(Clone, Copy, Debug, PartialEq, Eq)]
pub enum Field {
    Side = 1,
    Kind,
    Strike,
    Days,
    Price,
    Quantity,
}

/// Why no record is made.
#[derive(Clone, Copy, Debug, PartialEq, Eq)]
pub enum RecordFault {
    OutOfRange(Field),
}

/// A record as it is sent, with nothing checked.
#[derive(Clone, Copy, Debug, PartialEq, Eq)]
pub struct Entry {
    pub side: char,
    pub kind: char,
    pub strike: u64,
    pub days: u64,
    pub price: u64,
    pub quantity: u64,
}

/// The lowest and the highest number that a field may hold.
/// A range of its own: a definition cannot make a `RangeInclusive`, whose fields are the library's own.
#[derive(Clone, Copy, Debug, PartialEq, Eq)]
pub struct Range {
    pub low: u64,
    pub high: u64,
}

impl Field {
    /// The field's number in a record, from 1.
    pub fn number(self) -> u8
        ensures { result ≡ field_number self }
    {
        self as u8
    }
}

impl RecordFault {
    /// The number by which the refusal is known, which the file format fixes; a variant with data has no discriminant.
    pub fn number(self) -> u8
        ensures { result ≡ record_fault_number self }
    {
        match self {
            RecordFault::OutOfRange(_) => 2,
        }
    }

    /// What is returned with the number: the field's.
    pub fn detail(self) -> u8
        ensures { result ≡ record_fault_detail self }
    {
        match self {
            RecordFault::OutOfRange(field) => field.number(),
        }
    }
}

/// The number and the detail.
impl fmt::Display for RecordFault {
    ghost output = { λ f. Some (record_fault_text f) };

    fn fmt<W: fmt::Write>(&self, f: &mut fmt::Formatter<W>) -> fmt::Result {
        write!(f, "refused={},{}", self.number(), self.detail())
    }
}

impl Error for RecordFault {}

impl Range {
    /// Whether the number lies in the range, its ends included.
    fn contains(self, n: u64) -> bool
        ensures { result ≡ holds self n }
    {
        (self.low..=self.high).contains(&n)
    }
}

fn from_to(low: u64, high: u64) -> Range
    ensures { result ≡ from_to low high }
{
    Range { low, high }
}

/// A strike, in cents a unit: options have one.
pub fn strike_range(kind: Kind) -> Range
    ensures value { result ≡ strike_range kind }
    ensures bound { result.high ≤ 500000 }
{
    match kind {
        Kind::Call | Kind::Put => from_to(1, 500_000),
        Kind::Units | Kind::Futures | Kind::Receipt => from_to(0, 0),
    }
}

/// The days to expiry: options and futures expire.
pub fn day_range(kind: Kind) -> Range
    ensures value { result ≡ day_range kind }
    ensures bound { result.high ≤ 4000 }
{
    match kind {
        Kind::Call | Kind::Put | Kind::Futures => from_to(0, 4_000),
        Kind::Units | Kind::Receipt => from_to(0, 0),
    }
}

/// A price, in cents a unit: an option's premium, or the daily settlement of futures.
pub fn price_range(kind: Kind) -> Range
    ensures value { result ≡ price_range kind }
    ensures bound { result.high ≤ 500000 }
{
    match kind {
        Kind::Call | Kind::Put => from_to(0, 500_000),
        Kind::Futures => from_to(1, 500_000),
        Kind::Units | Kind::Receipt => from_to(0, 0),
    }
}

impl Side {
    /// The other side.
    pub fn opposite(self) -> Side
        ensures { result ≡ other_side self }
    {
        match self {
            Side::Long => Side::Short,
            Side::Short => Side::Long,
        }
    }
}
