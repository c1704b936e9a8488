//! A contract size or a sheet that is refused, in words.
ghost use Rattle.std.specs.Prelude.{◌≡◌, IfOk};
ghost use Rattle.page_refusals.specs.Sheets.{size_words, outside, out_of_range, kind_out_of_range, value_right, value_words, sheet_words};
ghost use Rattle.page_refusals.specs.Words.{said};

use crate::forms::LineKind;
use crate::words::{Words, plain};
use file_fields::numbers::natural_of;
use page_wording::lines;
use std::alloc::{AllocError, Global};

/// Where the value of a contract size begins.
const SIZE_PLACE: usize = 6;

/// A contract size outside its range.
pub(crate) fn size_words(heap: Global) -> Result<Words, AllocError>
    ensures { IfOk result (λ w. said w ≡ size_words) }
{
    plain(
        heap,
        Some(SIZE_PLACE),
        "the contract size is out of its range",
        "a contract has 1 to 1,000 units of the underlying",
    )
}

/// Whether a number is outside the range of a line's kind.
fn outside(kind: LineKind, number: u64) -> bool
    ensures { result ≡ outside kind number }
{
    match kind {
        LineKind::Price => !(1..=500_000).contains(&number),
        LineKind::Floor | LineKind::Futures | LineKind::Tracking | LineKind::Spot => {
            number > 10_000
        }
        LineKind::Size
        | LineKind::Market
        | LineKind::Reduced
        | LineKind::Position
        | LineKind::Claim
        | LineKind::Mark => false,
    }
}

/// Whether a line of a sheet has a number outside its range.
fn out_of_range(line: &[u8], kind: LineKind) -> bool
    ensures { result ≡ out_of_range line.now kind }
{
    line.strip_prefix(kind.key().as_bytes())
        .and_then(natural_of)
        .map_or(false, |number| outside(kind, number))
}

/// The kind of a line whose number is outside its range.
fn kind_out_of_range(line: &[u8]) -> Option<LineKind>
    ensures { result ≡ kind_out_of_range line.now }
{
    LineKind::of(line).filter(|kind| out_of_range(line, *kind))
}

/// What would be right for a value of a sheet.
fn value_right(kind: LineKind) -> &'static str
    ensures { result.now ≡ value_right kind }
{
    match kind {
        LineKind::Price => "a price is 1 to 500,000 cents",
        _ => "a rate is 0 to 10,000 basis points, which is 100%",
    }
}

/// The value of a line that is out of its range: it is marked on the sheet's last line.
fn value_words(
    heap: Global,
    kind: LineKind,
    number: usize,
    last: usize,
) -> Result<Words, AllocError>
    ensures { IfOk result (λ w. said w ≡ value_words kind number last) }
{
    let name = kind.key();
    Ok(Words {
        place: (number == last).then_some(name.len() + 1),
        wrong: format!(in heap; "the value of {name} on line {number} is out of its range")?,
        right: String::from_str(heap, value_right(kind))?,
    })
}

/// A value outside its range: a sheet is judged at its last line, and the first such value may stand on an earlier one.
pub(crate) fn words(heap: Global, file: &[u8], last: usize) -> Result<Words, AllocError>
    ensures { IfOk result (λ w. said w ≡ sheet_words file.now last) }
{
    for number in 3..=last {
        if let Some(kind) = kind_out_of_range(lines::at(file, number)) {
            return value_words(heap, kind, number, last);
        }
    }
    plain(
        heap,
        None,
        "a value of the sheet is out of its range",
        "a price is 1 to 500,000 cents, a rate is 0 to 10,000 basis points",
    )
}
