//! How a record is made of what is entered: side, kind, and then each number in its range.
ghost use Rattle.std.specs.Prelude.{◌≡◌, ◌≤◌, true, IfOk, OnOk, ok_or};
ghost use Rattle.rules_positions.specs.Ranges.{quantity_range, checked, AreInRange};
ghost use Rattle.rules_positions.specs.Records.{judged, record_of, no_record};
ghost use Rattle.rules_positions.specs.Letters.{kind_for, sided};

use crate::record::Record;
use crate::{
    Entry, Field, Kind, Range, RecordFault, Side, day_range, from_to, price_range, strike_range,
};
use rules_amounts::{Cents, ContractSize};

/// The quantity: contracts, or units of the underlying, of which a contract has `size`.
pub fn quantity_range(size: ContractSize, kind: Kind) -> Range
    ensures value { result ≡ quantity_range size.units kind }
    ensures some { 1 ≤ result.low }
    ensures bound { result.high ≤ 5000000 }
{
    match kind {
        Kind::Units => from_to(1, 5_000 * u64::from(size.units)),
        Kind::Call | Kind::Put | Kind::Futures | Kind::Receipt => from_to(1, 5_000),
    }
}

/// The kind that a letter stands for on a side: a receipt is never short.
fn kind_for(side: Side, letter: char) -> Result<Kind, RecordFault>
    ensures value { result ≡ ok_or (kind_for side letter) (RecordFault.OutOfRange Field.Kind) }
    ensures sided { IfOk result (λ kind. sided side kind ≡ true) }
{
    match (side, Kind::try_from(letter)?) {
        (Side::Short, Kind::Receipt) => Err(RecordFault::OutOfRange(Field::Kind)),
        (_, kind) => Ok(kind),
    }
}

/// Refuses a field outside its range.
fn check(field: Field, range: Range, value: u64) -> Result<(), RecordFault>
    ensures { result ≡ checked field range value }
{
    if !range.contains(value) {
        return Err(RecordFault::OutOfRange(field));
    }
    Ok(())
}

/// Refuses the first number outside its range.
fn judge(size: ContractSize, entry: &Entry, kind: Kind) -> Result<(), RecordFault>
    ensures value { result ≡ judged size.units entry.now kind }
    ensures fits { OnOk result (AreInRange entry.now kind) }
{
    check(Field::Strike, strike_range(kind), entry.strike)?;
    check(Field::Days, day_range(kind), entry.days)?;
    check(Field::Price, price_range(kind), entry.price)?;
    check(Field::Quantity, quantity_range(size, kind), entry.quantity)
}

/// What is read where there is no position.
impl Default for Record {
    ghost is_default = { λ r. r ≡ no_record };

    fn default() -> Record {
        Record {
            side: Side::Long,
            kind: Kind::Units,
            strike: 0,
            days: 0,
            price: 0,
            quantity: 0,
        }
    }
}

impl Record {
    /// The record that the fields make, or the first field out of its range.
    pub fn new(size: ContractSize, entry: &Entry) -> Result<Record, RecordFault>
        ensures { result ≡ record_of size.units entry.now }
    {
        let side = Side::try_from(entry.side)?;
        let kind = kind_for(side, entry.kind)?;
        judge(size, entry, kind)?;
        // Each number is in its range, so the casts lose nothing.
        Ok(Record {
            side,
            kind,
            strike: entry.strike as u32,
            days: entry.days as u16,
            price: entry.price as u32,
            quantity: entry.quantity as u32,
        })
    }

    /// The strike.
    pub fn strike_cents(&self) -> Cents
        ensures { result.amount ≡ self.now.strike }
    {
        Cents {
            amount: self.strike,
        }
    }

    /// The premium or the settlement.
    pub fn price_cents(&self) -> Cents
        ensures { result.amount ≡ self.now.price }
    {
        Cents { amount: self.price }
    }
}
