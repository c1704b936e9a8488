//! The tariff: what one unit or contract of each position of a file requires alone.
#![tactic(auto)]

ghost use Rattle.std.specs.Prelude.{◌≡◌, ◌≤◌, length, IfOk, Some};
ghost use Rattle.std.specs.Result.{result_map_both};
ghost use Rattle.rules_books.specs.Books.{sheet_tables};
ghost use Rattle.answer_tariff.specs.Tariffs.{charges, tariff_of, charges_text};
ghost use Rattle.calls_docket.specs.Dockets.{docket_by};

use answer_docket::FileFault;
use arrayvec::ArrayVec;
use calls_docket::Docket;
use file_head::limit::fits;
use file_reading::read;
use rules_books::{Book, Sheet};
use std::fmt;

/// What each position requires alone, in parts, in order of entry.
#[derive(Clone, Debug, PartialEq, Eq, Drop)]
pub struct Tariff {
    pub parts: ArrayVec<u64, 32>,
}

/// A line for each position: its number, from 1, and its parts.
impl fmt::Display for Tariff {
    ghost output = { λ t. Some (charges_text 1 t.parts.items) };

    fn fmt<W: fmt::Write>(&self, f: &mut fmt::Formatter<W>) -> fmt::Result {
        for (i, parts) in self.parts.iter().enumerate() {
            let position = i + 1;
            writeln!(f, "position={position},{parts}")?;
        }
        Ok(())
    }
}

/// What each position of a docket requires alone.
fn charged(docket: &Docket<Sheet>) -> Tariff
    ensures parts { result.parts.items ≡ charges (docket_by sheet_tables docket.now) }
    ensures few { length result.parts.items ≤ 32 }
{
    // A loop: collecting into an ArrayVec can fail.
    let mut parts = ArrayVec::new();
    for position in docket.positions() {
        parts.push(docket.book().alone(docket.size(), position));
    }
    Tariff { parts }
}

/// What each position of a file requires alone, or why the file is refused; its length is tested first.
pub fn tariff_of(file: &[u8]) -> Result<Tariff, FileFault>
    ensures parts { result_map_both (λ t. t.parts.items) (λ e. e) result ≡ tariff_of file.now }
    ensures few { IfOk result (λ t. length t.parts.items ≤ 32) }
{
    if !fits(file) {
        return Err(FileFault::TooLong);
    }
    // Places for the marks, which reading fills: nothing else is done with them.
    let mut marks = [0; 32];
    Ok(charged(&read(file, &mut marks)?.docket))
}
