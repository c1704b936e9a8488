//! A field of a position outside its range, in words.
ghost use Rattle.std.specs.Prelude.{◌≡◌, Some, IfOk, string_bytes};
ghost use Rattle.page_refusals.specs.Ranges.{grouped, range_text, field_name, whose, subject, counted, ranged_text, field_right, entry_on, kind_on, range_words};
ghost use Rattle.page_refusals.specs.Words.{said};

use crate::words::Words;
use file_body::values::entry_in;
use page_wording::fields::place_of;
use page_wording::names::ordinal;
use rules_amounts::ContractSize;
use rules_positions::{
    Entry, Field, Kind, Range, day_range, price_range, quantity_range, strike_range,
};
use std::alloc::{AllocError, Global};
use std::fmt::{self, Display};

/// A number with commas.
#[derive(Clone, Copy)]
struct Grouped(u64);

impl Display for Grouped {
    ghost output = { λ n. Some (grouped n.0) };

    fn fmt<W: fmt::Write>(&self, f: &mut fmt::Formatter<W>) -> fmt::Result {
        if self.0 < 1_000 {
            return write!(f, "{}", self.0);
        }
        // By a call: a recursion through write! gets no generated proof.
        Grouped(self.0 / 1_000).fmt(f)?;
        write!(f, ",{:03}", self.0 % 1_000)
    }
}

/// A range from its lowest to its highest number.
#[derive(Clone, Copy)]
struct InWords(Range);

impl Display for InWords {
    ghost output = { λ r. Some (range_text r.0) };

    fn fmt<W: fmt::Write>(&self, f: &mut fmt::Formatter<W>) -> fmt::Result {
        let low = Grouped(self.0.low);
        let high = Grouped(self.0.high);
        if self.0.low == self.0.high {
            return write!(f, "{low}");
        }
        write!(f, "{low} to {high}")
    }
}

fn field_name(field: Field) -> &'static str
    ensures { result.now ≡ field_name field }
{
    match field {
        Field::Side => "side",
        Field::Kind => "kind",
        Field::Strike => "strike",
        Field::Days => "days",
        Field::Price => "price",
        Field::Quantity => "quantity",
    }
}

/// Whose field it is.
fn whose(kind: Kind) -> &'static str
    ensures { result.now ≡ whose kind }
{
    match kind {
        Kind::Units => "the units'",
        Kind::Call => "a call's",
        Kind::Put => "a put's",
        Kind::Futures => "the futures'",
        Kind::Receipt => "an escrow receipt's",
    }
}

/// A field that has a range, as a subject.
fn subject(field: Field) -> &'static str
    ensures { result.now ≡ subject field }
{
    match field {
        Field::Side => "side is",
        Field::Kind => "kind is",
        Field::Strike => "strike is",
        Field::Days => "days to expiry are",
        Field::Price => "price is",
        Field::Quantity => "quantity is",
    }
}

/// What a field counts.
fn counted(field: Field, kind: Kind) -> &'static str
    ensures { result.now ≡ counted field kind }
{
    match (field, kind) {
        (Field::Strike | Field::Price, _) => " cents",
        (Field::Quantity, Kind::Units) => " units, 5,000 times the contract size",
        (Field::Quantity, _) => " contracts",
        (Field::Side | Field::Kind | Field::Days, _) => "",
    }
}

/// A field of a kind with its range.
fn ranged(heap: Global, field: Field, kind: Kind, range: Range) -> Result<String, AllocError>
    ensures { IfOk result (λ t. string_bytes t ≡ ranged_text field kind range) }
{
    format!(in heap;
        "{} {} {}{}",
        whose(kind),
        subject(field),
        InWords(range),
        counted(field, kind)
    )
}

/// What would be right for a field of a position.
fn field_right(
    heap: Global,
    size: ContractSize,
    kind: Kind,
    field: Field,
) -> Result<String, AllocError>
    ensures { IfOk result (λ t. string_bytes t ≡ field_right size.units kind field) }
{
    match field {
        Field::Side => String::from_str(heap, "L is long and S is short"),
        Field::Kind => String::from_str(
            heap,
            "U units, C call, P put, F futures, R escrow receipt, which is never short",
        ),
        Field::Strike => ranged(heap, field, kind, strike_range(kind)),
        Field::Days => ranged(heap, field, kind, day_range(kind)),
        Field::Price => ranged(heap, field, kind, price_range(kind)),
        Field::Quantity => ranged(heap, field, kind, quantity_range(size, kind)),
    }
}

/// The position that a line sends.
fn entry_on(line: &[u8]) -> Option<Entry>
    ensures { result ≡ entry_on line.now }
{
    entry_in(line.strip_prefix(b"pos=")?, 5).ok()
}

/// The kind of the position that a line sends.
fn kind_on(line: &[u8]) -> Kind
    ensures { result ≡ kind_on line.now }
{
    entry_on(line)
        .and_then(|entry| Kind::try_from(entry.kind).ok())
        .unwrap_or(Kind::Units)
}

/// A field of a position outside its range.
pub(crate) fn words(
    heap: Global,
    size: ContractSize,
    line: &[u8],
    field: Field,
) -> Result<Words, AllocError>
    ensures { IfOk result (λ w. said w ≡ range_words size.units line.now field) }
{
    let number = usize::from(field.number());
    Ok(Words {
        place: Some(place_of(line, number)),
        wrong: format!(in heap;
            "the {} field ({}) is out of its range",
            ordinal(number),
            field_name(field)
        )?,
        right: field_right(heap, size, kind_on(line), field)?,
    })
}
