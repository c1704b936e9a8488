//! A whole file, read; and what reading and writing it keep.
#![tactic(auto)]

ghost use Rattle.std.specs.Prelude.{◌≡◌, ◌≤◌, IfOk};
ghost use Rattle.std.specs.Result.{result_map_both};
ghost use Rattle.file_reading.specs.Content.{content_read};
ghost use Rattle.file_body.specs.Files.{read_file, filled};
ghost use Rattle.file_writing.specs.Texts.{file_text};
ghost use Rattle.file_reading.specs.Faithful.{Faithful};

use calls_docket::Docket;
use file_body::{Body, gather};
use file_head::faults::ReadFault;
use rules_books::Sheet;

/// What a file describes: a docket, and how many marks.
/// A count beside the caller's array: the product leaves the places after the marks as they were.
#[derive(Drop)]
pub struct Content {
    pub docket: Docket<Sheet>,
    pub marks: usize,
}

/// The docket that a file describes, and its marks into the first places.
/// A function of its own, so that the laws of `read` follow once, and not anew for each way out of it.
fn read_into(file: &[u8], marks: &mut [i64; 32]) -> Result<Content, ReadFault>
    ensures value { result_map_both (λ x. content_read x marks.new) (λ e. e) result
        ≡ read_file file.now }
    ensures places { marks.new ≡ filled (read_file file.now) marks.old }
    ensures few { IfOk result (λ x. x.marks ≤ 32) }
{
    let Body { docket, marks: own } = gather(file)?;
    marks[..own.len()].copy_from_slice(&own);
    Ok(Content {
        docket,
        marks: own.len(),
    })
}

/// The docket that a file describes, with its marks in the first places; a fault leaves the places as they were.
/// What is read, written again, is the file; and a docket that calls led to is read back from its text.
pub fn read(file: &[u8], marks: &mut [i64; 32]) -> Result<Content, ReadFault>
    ensures value { result_map_both (λ x. content_read x marks.new) (λ e. e) result
        ≡ read_file file.now }
    ensures places { marks.new ≡ filled (read_file file.now) marks.old }
    ensures few { IfOk result (λ x. x.marks ≤ 32) }
    ensures again { IfOk result (λ x. file_text (content_read x marks.new) ≡ file.now) }
    ensures faithful { Faithful }
{
    read_into(file, marks)
}
