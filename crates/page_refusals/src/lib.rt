//! Why a file is refused, in words: the line as it stands, a mark under the byte or the field that is named, what is wrong, and what would be right.
#![tactic(auto)]

ghost use Rattle.std.specs.Prelude.{◌≡◌, IfOk, string_bytes};
ghost use Rattle.std.specs.Option.{option_map};
ghost use Rattle.page_refusals.specs.Before.{before, before_in};
ghost use Rattle.page_refusals.specs.Refused.{line_fault_words, place_text, refusal_page};
ghost use Rattle.page_refusals.specs.Words.{said};

mod bad_lines;
mod calls;
mod forms;
mod legs;
mod ranges;
mod sheets;
mod words;

use bad_lines::BadLine;
use file_head::faults::{LineFault, ReadFault};
use file_reading::{Content, read};
use page_wording::lines;
use page_wording::shown::shown;
use std::alloc::{AllocError, Global};
use words::Words;

/// What the lines before one describe. In the head they are no file that is accepted.
fn before(file: &[u8], number: usize) -> Option<Content>
    ensures { option_map before_in result ≡ before file.now number }
{
    let mut marks = [0; 32];
    read(lines::before(file, number), &mut marks).ok()
}

/// What is wrong with a line.
fn words_of(heap: Global, file: &[u8], number: usize, fault: LineFault) -> Result<Words, AllocError>
    ensures { IfOk result (λ w. said w
        ≡ line_fault_words file.now number (before file.now number) fault) }
{
    let line = lines::at(file, number);
    let before = before(file, number);
    match (fault, before) {
        (LineFault::Bad { place, cause }, before) => {
            let due = bad_lines::due(heap, file, number, before.as_ref())?;
            let bad = BadLine {
                file,
                number,
                line,
                place,
                due: due.as_str(),
            };
            bad.words(heap, cause)
        }
        (LineFault::Sheet(_), _) => sheets::words(heap, file, number),
        (LineFault::Call(refusal), Some(before)) => calls::words(heap, &before, line, refusal),
        // Before there is a docket, the only call is to open one.
        (LineFault::Call(_), None) => sheets::size_words(heap),
    }
}

/// The byte that is marked, if one is.
fn place_words(heap: Global, place: Option<usize>) -> Result<String, AllocError>
    ensures { IfOk result (λ t. string_bytes t ≡ place_text place) }
{
    match place {
        Some(place) => format!(in heap; ", byte {place}"),
        None => String::from_str(heap, ""),
    }
}

/// A file that cannot be read, in words.
pub fn refused(heap: Global, file: &[u8], fault: &ReadFault) -> Result<String, AllocError>
    ensures { IfOk result (λ t. string_bytes t ≡ refusal_page file.now fault.now) }
{
    let number = fault.line;
    let words = words_of(heap, file, number, fault.fault)?;
    let at = place_words(heap, words.place)?;
    let shown = shown(heap, lines::at(file, number), words.place)?;
    format!(in heap;
        "The file is refused at line {number}{at}.\n\n{shown}\nWrong: {}.\nRight: {}.\n",
        words.wrong, words.right,
    )
}
