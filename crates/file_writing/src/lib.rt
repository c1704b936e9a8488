//! A docket and its marks, written as the file that describes them.
#![tactic(auto)]

ghost use Rattle.std.specs.Prelude.{◌≡◌, take, IfOk, string_bytes};
ghost use Rattle.file_writing.specs.Texts.{described, file_text};
ghost use Rattle.file_writing.specs.Writing.{IsWritten, write_number, write_details};
ghost use Rattle.file_writing.specs.declared.WriteFault.TheVariants.{Memory};

mod lines;
mod or_none;
mod sheet;

use calls_docket::{Details, Docket};
use lines::lines;
pub use or_none::OrNone;
use rules_books::Sheet;
use sheet::sheet_lines;
use std::alloc::{AllocError, Global};

/// Why nothing was written: the buffer is too short for the text, which needs so many bytes, or there is no memory to write it in.
#[derive(Clone, Copy, Debug, PartialEq, Eq)]
pub enum WriteFault {
    Short(usize),
    Memory,
}

impl From<AllocError> for WriteFault {
    ghost from_gives = { λ _ y. y ≡ Memory };

    fn from(_value: AllocError) -> WriteFault
        ensures { result ≡ Memory }
    {
        WriteFault::Memory
    }
}

impl WriteFault {
    /// The number by which the fault is known, which the file format fixes; want of memory has no number, and is told as 0.
    pub fn number(self) -> u8
        ensures { result ≡ write_number self }
    {
        match self {
            WriteFault::Short(_) => 21,
            WriteFault::Memory => 0,
        }
    }

    /// What is returned with the number.
    pub fn details(self) -> Details
        ensures { result ≡ write_details self }
    {
        match self {
            WriteFault::Short(needed) => Details {
                one: needed,
                ..Details::default()
            },
            WriteFault::Memory => Details::default(),
        }
    }
}

/// The text of the file, with at most 32 marks. Docket and marks stand side by side: the product writes a docket with marks that are the caller's.
pub fn text(heap: Global, docket: &Docket<Sheet>, marks: &[i64]) -> Result<String, AllocError>
    ensures { IfOk result (λ t. string_bytes t
        ≡ file_text (described docket.now (take 32 marks.now))) }
{
    let size = docket.size().units;
    let rates = sheet_lines(heap, docket.book())?;
    let positions = lines(heap, "pos=", docket.positions())?;
    let claims = lines(heap, "claim=", docket.claims())?;
    let marks = lines(heap, "mark=", &marks[..marks.len().min(32)])?;
    format!(in heap; "size={size}\n{rates}{positions}{claims}{marks}")
}

/// Copies a text to the front of a buffer, and gives its length.
fn copy_into(text: &[u8], buf: &mut [u8]) -> Result<usize, WriteFault>
    ensures { IsWritten text.now buf.old result buf.new }
{
    let needed = text.len();
    // By its length: the contract of get_mut does not say what the buffer is left as.
    if needed > buf.len() {
        return Err(WriteFault::Short(needed));
    }
    buf[..needed].copy_from_slice(text);
    Ok(needed)
}

/// Writes the file to the front of a buffer, and gives its length; a fault leaves the buffer as it was.
/// Docket, marks and buffer are the caller's, and the length is given back: the product writes a file in this form.
pub fn write(
    heap: Global,
    docket: &Docket<Sheet>,
    marks: &[i64],
    buf: &mut [u8],
) -> Result<usize, WriteFault>
    ensures { IsWritten (file_text (described docket.now (take 32 marks.now)))
        buf.old result buf.new }
{
    let text = text(heap, docket, marks)?;
    copy_into(text.as_bytes(), buf)
}
