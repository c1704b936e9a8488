//! A docket's file as a page that can be read: the sheet, the positions, what each option and each claim requires and why, and the verdict.
#![tactic(auto)]

ghost use Rattle.std.specs.Prelude.{◌≡◌, IfOk, string_bytes};
ghost use Rattle.file_reading.specs.Texts.{described};
ghost use Rattle.page_statement.specs.Rules.{rules_on};
ghost use Rattle.page_statement.specs.Laws.{LeastHolds};
ghost use Rattle.page_statement.specs.Page.{page_under, too_long_text, statement_text};

mod claims;
mod columns;
mod marks;
mod options;
mod positions_held;
mod sheet;
mod terms;
mod verdict;

use answer_docket::{FileFault, Summary, answer_to};
use calls_docket::Docket;
use file_head::limit::fits;
use file_reading::read;
use page_refusals::refused;
use rules_books::Sheet;
use std::alloc::{AllocError, Global};

/// The page of a docket and its marks, with what they are answered.
#[tactic(auto, unfolding(crate::specs::Page::page_under))]
fn page(
    heap: Global,
    docket: &Docket<Sheet>,
    marks: &[i64],
    answer: Result<Summary, FileFault>,
) -> Result<String, AllocError>
    ensures { IfOk result (λ t. string_bytes t
        ≡ page_under (rules_on docket.now.book) (described docket.now marks.now) answer) }
{
    let sheet = sheet::section(heap, docket)?;
    let positions = positions_held::section(heap, docket)?;
    let options = options::section(heap, docket)?;
    let claims = claims::section(heap, docket)?;
    let verdict = verdict::section(heap, docket, marks, answer)?;
    format!(in heap; "{sheet}{positions}{options}{claims}{verdict}")
}

/// A file that is too long.
fn too_long(heap: Global) -> Result<String, AllocError>
    ensures { IfOk result (λ t. string_bytes t ≡ too_long_text) }
{
    String::from_str(
        heap,
        "The file is refused.\n\nWrong: it has more than 65,536 bytes.\nRight: a file has at most 65,536 bytes.\n",
    )
}

/// The page of a file, or why the file is refused, in words.
#[tactic(auto, using(crate::proofs::Least::least_of), unfolding(crate::specs::Page::statement_text))]
pub fn statement(heap: Global, file: &[u8]) -> Result<String, AllocError>
    ensures text { IfOk result (λ t. string_bytes t ≡ statement_text file.now) }
    ensures least { LeastHolds file.now }
{
    let answer = answer_to(file);
    if !fits(file) {
        return too_long(heap);
    }
    let mut marks = [0; 32];
    match read(file, &mut marks) {
        Ok(content) => page(heap, &content.docket, &marks[..content.marks], answer),
        Err(fault) => refused(heap, file, &fault),
    }
}
