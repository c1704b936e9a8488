//! From the bytes of a file to its answer.
ghost use Rattle.std.specs.Prelude.{◌≡◌};
ghost use Rattle.answer_docket.specs.Answers.{summary_in, answer_to};
ghost use Rattle.answer_docket.specs.Laws.{IsToldBy};
ghost use Rattle.file_reading.specs.Faithful.{Faithful};
ghost use Rattle.file_writing.specs.Texts.{described};

use crate::{FileFault, Summary};
use calls_docket::Docket;
use file_head::limit::fits;
use file_reading::read;
use rules_books::Sheet;

/// The figures of a docket, and of its marks, which are no part of it; without marks nothing is certified.
fn summed(docket: &Docket<Sheet>, marks: &[i64]) -> Result<Summary, FileFault>
    ensures { result ≡ summary_in (described docket.now marks.now) }
{
    let (total, floor) = if marks.is_empty() {
        (docket.total(), None)
    } else {
        let certificate = docket.account().certify(marks)?;
        (certificate.total, Some(certificate.floor))
    };
    Ok(Summary {
        positions: docket.positions().len(),
        claims: docket.claims().len(),
        total,
        floor,
    })
}

/// The answer to a file: the figures of the docket and the marks that it describes, or why it is refused; its length is tested first.
/// Where its verdict is least, no lawful pairing of the positions in the file costs less than the total.
pub fn answer_to(file: &[u8]) -> Result<Summary, FileFault>
    ensures value { result ≡ answer_to file.now }
    ensures told { IsToldBy file.now result }
    ensures faithful { Faithful }
{
    if !fits(file) {
        return Err(FileFault::TooLong);
    }
    // Places for the marks, and how many are filled: reading takes them in this form, which the product fixes.
    let mut marks = [0; 32];
    let content = read(file, &mut marks)?;
    summed(&content.docket, &marks[..content.marks])
}
