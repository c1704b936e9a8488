//! Fair marks, lawful pairings, and the claims standing as one of them.
#![tactic(auto)]

ghost use Rattle.std.specs.Prelude.{◌≡◌, ◌-◌, ◌^◌, ◌≤◌, length, pos, ◌*ℤ◌, neg_ℤ, ◌≤ℤ◌, slice_index_or};
ghost use Rattle.rules_books.specs.Tables.{Has};
ghost use Rattle.certificate_pairing.specs.Pairing.{at, mark, lot, answer, of_leg};
ghost use Rattle.certificate_pairing.specs.Claims.{legs_of};

mod text;

use rules_amounts::ContractSize;
use rules_books::{Book, BookFault};
use rules_positions::{Kind, Record};

/// A claim: an article, its legs by the numbers of their positions, the third 0 where the article has two, and a number of sets.
/// The product fixes it as five numbers, as a call sends and a file keeps them, with nothing checked.
#[derive(Clone, Copy, Debug, Default, PartialEq, Eq)]
pub struct Claim {
    pub article: u64,
    pub first: u64,
    pub second: u64,
    pub third: u64,
    pub sets: u64,
}

impl Claim {
    /// The number of its legs.
    pub fn legs(&self) -> u8
        ensures { result ≡ length (legs_of self.now) }
    {
        if self.third == 0 { 2 } else { 3 }
    }
}

/// At most 32 positions, with a mark for each. Two slices: the marks are the caller's, and a list of pairs would need memory.
#[derive(Clone, Copy, Debug, PartialEq, Eq)]
pub struct Marked<'a> {
    pub held: &'a [Record],
    pub marks: &'a [i64],
    ghost each: { length marks.now ≡ length held.now },
    ghost few: { length held.now ≤ 32 },
}

/// The item of a number, counted from 1, where 0 is read as 1; or `none` beyond the last.
fn numbered<T: Copy>(items: &[T], p: u64, none: T) -> T
    ensures { result ≡ slice_index_or items.now (p - 1) none }
{
    // A `usize` has 64 bits here, so the cast loses nothing.
    items
        .get(p.saturating_sub(1) as usize)
        .copied()
        .unwrap_or(none)
}

/// Position `p`, where 0 is read as 1; or a record of zeros beyond the last.
pub fn at(held: &[Record], p: u64) -> Record
    ensures { result ≡ at held.now p }
{
    numbered(held, p, Record::default())
}

/// The mark of position `p`, where 0 is read as 1; or 0 beyond the last.
pub fn mark(marks: &[i64], p: u64) -> i64
    ensures { result ≡ mark marks.now p }
{
    numbered(marks, p, 0)
}

/// What a set takes of a leg: a contract's units of the underlying, and one contract of any other.
pub fn set_takes(size: ContractSize, kind: Kind) -> u16
    ensures { result ≡ of_leg size.units kind }
{
    match kind {
        Kind::Units => size.units,
        Kind::Call | Kind::Put | Kind::Futures | Kind::Receipt => 1,
    }
}

/// What a set takes of position `p` where that is one of its legs.
pub fn lot(size: ContractSize, held: &[Record], p: u64) -> u16
    ensures { result ≡ lot size.units held.now p }
{
    set_takes(size, at(held, p).kind)
}

/// What a book says of a set: an article, and its legs by the numbers of their positions.
/// The book has the article, and all its legs are there.
pub fn answer<B: Book>(
    book: &B,
    size: ContractSize,
    held: &[Record],
    article: u8,
    legs: &[u64],
) -> Result<u64, BookFault>
    requires has { Has (B.tables book.now) article }
    requires whole { length legs.now ≡ (B.tables book.now).legs article }
    ensures { result
        ≡ answer (B.tables book.now) size.units held.now
        (record { article = article; legs = legs.now }) }
{
    // An arm for each number of legs: an array of three, cut to their number, would first read a third leg that is not there.
    match legs {
        [first, second] => book.paired(size, article, &[at(held, *first), at(held, *second)]),
        [first, second, third] => {
            let records = [at(held, *first), at(held, *second), at(held, *third)];
            book.paired(size, article, &records)
        }
        // A book's articles have two or three legs.
        _ => unreachable!(),
    }
}

/// A mark for some units or contracts.
pub fn mark_times(mark: i64, units: u32) -> i128
    ensures value { result ≡ mark *ℤ pos units }
    ensures low { neg_ℤ (pos (2 ^ 95)) ≤ℤ result }
    ensures high { result ≤ℤ pos (2 ^ 95) }
{
    i128::from(mark) * i128::from(units)
}
