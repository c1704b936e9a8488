//! The total, the floor, and what the one says of the other.
ghost use Rattle.std.specs.Prelude.{◌≡◌, IfOk, string_bytes};
ghost use Rattle.page_statement.specs.Rules.{rules_on};
ghost use Rattle.page_statement.specs.Verdict.{gap_words, verdict_words, floor_column, figure_lines, summary_words, marks_fault_words, fault_lines, answer_words, verdict_section};
ghost use Rattle.certificate_pairing.specs.Dockets.{docket_by};

use crate::columns::{amount, right};
use crate::marks::refusal_words;
use answer_docket::{FileFault, Summary, Verdict};
use calls_docket::Docket;
use page_figures::gap_of;
use page_money::Dollars;
use rules_books::Sheet;
use std::alloc::{AllocError, Global};

/// How far the floor lies under the total.
fn gap_words(heap: Global, gap: Option<i128>) -> Result<String, AllocError>
    ensures { IfOk result (λ t. string_bytes t ≡ gap_words gap) }
{
    match gap {
        Some(gap) => {
            let gap = Dollars::from(gap);
            format!(in heap; "gap: the floor lies under the total by {gap}\n")
        }
        None => String::from_str(heap, "gap: the floor lies under the total\n"),
    }
}

/// What the floor says of the total.
fn verdict_words(
    heap: Global,
    verdict: Verdict,
    total: u128,
    floor: Option<i128>,
) -> Result<String, AllocError>
    ensures { IfOk result (λ t. string_bytes t ≡ verdict_words verdict total floor) }
{
    match (verdict, floor) {
        (Verdict::Least, _) => String::from_str(
            heap,
            "least: no lawful pairing of these positions costs less\n",
        ),
        (Verdict::Gap, Some(floor)) => gap_words(heap, gap_of(total, floor)),
        (Verdict::Gap, None) | (Verdict::Absent, _) => {
            String::from_str(heap, "not certified: the file has no marks\n")
        }
    }
}

/// The floor, or none.
fn floor_column(heap: Global, floor: Option<i128>) -> Result<String, AllocError>
    ensures { IfOk result (λ t. string_bytes t ≡ floor_column floor) }
{
    match floor {
        Some(floor) => amount(heap, 27, Dollars::from(floor)),
        None => right(heap, 27, "none"),
    }
}

/// The total and the floor, a line each, and the label of the verdict.
#[tactic(auto, unfolding(crate::specs::Verdict::figure_lines))]
fn figure_lines(heap: Global, total: u128, floor: Option<i128>) -> Result<String, AllocError>
    ensures { IfOk result (λ t. string_bytes t ≡ figure_lines total floor) }
{
    let total = amount(heap, 27, Dollars::from(total))?;
    let floor = floor_column(heap, floor)?;
    format!(in heap; "  Total    {total}\n  Floor    {floor}\n  Verdict  ")
}

/// The figures and their verdict.
fn summary_words(heap: Global, summary: &Summary) -> Result<String, AllocError>
    ensures { IfOk result (λ t. string_bytes t ≡ summary_words summary.now) }
{
    let figures = figure_lines(heap, summary.total, summary.floor)?;
    let verdict = verdict_words(heap, summary.verdict(), summary.total, summary.floor)?;
    format!(in heap; "{figures}{verdict}")
}

/// Why the marks are refused; the fault of a file that is read is of its marks.
fn fault_words(
    heap: Global,
    docket: &Docket<Sheet>,
    marks: &[i64],
    fault: FileFault,
) -> Result<String, AllocError>
    ensures { IfOk result (λ t. string_bytes t
        ≡ marks_fault_words (docket_by rules_on docket.now) marks.now fault) }
{
    match fault {
        FileFault::Certify(refusal) => refusal_words(heap, docket, marks, refusal),
        FileFault::TooLong | FileFault::Read(_) => String::from_str(heap, ""),
    }
}

/// The total without a floor, and why the marks are refused.
fn fault_lines(
    heap: Global,
    docket: &Docket<Sheet>,
    marks: &[i64],
    fault: FileFault,
) -> Result<String, AllocError>
    ensures { IfOk result (λ t. string_bytes t
        ≡ fault_lines (docket_by rules_on docket.now) marks.now fault) }
{
    let figures = figure_lines(heap, docket.total(), None)?;
    let words = fault_words(heap, docket, marks, fault)?;
    format!(in heap; "{figures}not certified: the marks are refused\n\n{words}")
}

/// What the docket and its marks are answered.
fn answer_words(
    heap: Global,
    docket: &Docket<Sheet>,
    marks: &[i64],
    answer: Result<Summary, FileFault>,
) -> Result<String, AllocError>
    ensures { IfOk result (λ t. string_bytes t
        ≡ answer_words (docket_by rules_on docket.now) marks.now answer) }
{
    match answer {
        Ok(summary) => summary_words(heap, &summary),
        Err(fault) => fault_lines(heap, docket, marks, fault),
    }
}

/// The heading, and what the docket and its marks are answered.
#[tactic(auto, unfolding(crate::specs::Verdict::verdict_section))]
pub(crate) fn section(
    heap: Global,
    docket: &Docket<Sheet>,
    marks: &[i64],
    answer: Result<Summary, FileFault>,
) -> Result<String, AllocError>
    ensures { IfOk result (λ t. string_bytes t
        ≡ verdict_section (docket_by rules_on docket.now) marks.now answer) }
{
    let words = answer_words(heap, docket, marks, answer)?;
    format!(in heap; "\nTotal and floor\n\n{words}")
}
