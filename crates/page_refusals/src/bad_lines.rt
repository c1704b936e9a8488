//! A bad line, in words.
ghost use Rattle.std.specs.Prelude.{◌≡◌, length, IfOk, string_bytes};
ghost use Rattle.std.specs.Option.{option_map, option_copied};
ghost use Rattle.page_refusals.specs.Before.{before_in};
ghost use Rattle.page_refusals.specs.BadLines.{body_text, head_text, due_text, no_line_words, key_words, wrong_key_words, field_at_fault, whole_text, ill_formed_text, missing_text, field_words, numbered_words, ill_formed_words, up_to_sets, same_before, repeated_text, repeated_words, bad_words};
ghost use Rattle.page_refusals.specs.Words.{said};

use crate::forms::LineKind;
use crate::words::{Words, plain};
use file_head::faults::LineCause;
use file_reading::Content;
use page_wording::fields::{begins_at, field_at};
use page_wording::lines;
use page_wording::names::ordinal;
use std::alloc::{AllocError, Global};

/// A line of a file, by its number, the place that is named, and what is due there.
#[derive(Clone, Copy)]
pub struct BadLine<'a> {
    pub file: &'a [u8],
    pub number: usize,
    pub line: &'a [u8],
    pub place: usize,
    pub due: &'a str,
}

/// What may stand on a line after the head.
fn body_words(claims: usize, marks: usize) -> &'static str
    ensures { result.now ≡ body_text claims marks }
{
    if marks >= 32 {
        return "nothing stands after the 32nd mark";
    }
    if marks > 0 {
        return "after a mark stand marks: a line of mark=";
    }
    if claims > 0 {
        return "after a claim stand claims and marks: a line of claim= or of mark=";
    }
    "a line of pos=, of claim= or of mark="
}

/// What a line of the head is.
fn head_words(heap: Global, number: usize, kind: Option<LineKind>) -> Result<String, AllocError>
    ensures { IfOk result (λ t. string_bytes t ≡ head_text number kind) }
{
    match kind {
        Some(kind) => format!(in heap; "line {number} is {}", kind.words()),
        None => String::from_str(heap, "a line of pos=, of claim= or of mark="),
    }
}

/// What is due on a line, in words.
pub(crate) fn due(
    heap: Global,
    file: &[u8],
    number: usize,
    before: Option<&Content>,
) -> Result<String, AllocError>
    ensures { IfOk result (λ t. string_bytes t
        ≡ due_text file.now number (option_map (λ x. before_in x.now) before.entry)) }
{
    match before {
        Some(before) => String::from_str(
            heap,
            body_words(before.docket.claims().len(), before.marks),
        ),
        None => {
            let currency = lines::at(file, 2) == b"market=currency".as_slice();
            head_words(heap, number, LineKind::due(number, currency))
        }
    }
}

/// A key that may not stand there.
fn key_words(heap: Global, kind: Option<LineKind>) -> Result<String, AllocError>
    ensures { IfOk result (λ t. string_bytes t ≡ key_words kind) }
{
    match kind {
        Some(kind) => format!(in heap; "a line of {} may not stand there", kind.key()),
        None => String::from_str(
            heap,
            "the line does not begin with a key that may stand there",
        ),
    }
}

/// What a line of a kind is.
fn whole_words(heap: Global, kind: LineKind) -> Result<String, AllocError>
    ensures { IfOk result (λ t. string_bytes t ≡ whole_text kind) }
{
    format!(in heap; "a line is {}", kind.words())
}

/// A field that is ill-formed.
fn ill_formed_field(heap: Global, field: usize, name: &str) -> Result<String, AllocError>
    ensures { IfOk result (λ t. string_bytes t ≡ ill_formed_text field name.now) }
{
    let ordinal = ordinal(field);
    format!(in heap; "the {ordinal} field ({name}) is ill-formed")
}

/// A field that is missing.
fn missing_field(heap: Global, field: usize, name: &str) -> Result<String, AllocError>
    ensures { IfOk result (λ t. string_bytes t ≡ missing_text field name.now) }
{
    let ordinal = ordinal(field);
    format!(in heap; "the {ordinal} field ({name}) is missing")
}

/// A field of a kind: a name that is there or not, or none.
fn field_words(
    heap: Global,
    kind: LineKind,
    place: usize,
    field: usize,
    there: bool,
) -> Result<Words, AllocError>
    ensures { IfOk result (λ w. said w ≡ numbered_words kind place field there) }
{
    let (wrong, right) = match kind.fields().get(field.saturating_sub(1)) {
        None => (
            String::from_str(heap, "a field too many")?,
            whole_words(heap, kind)?,
        ),
        Some(name) if there => (
            ill_formed_field(heap, field, name)?,
            String::from_str(heap, kind.form(field).words())?,
        ),
        Some(name) => (missing_field(heap, field, name)?, whole_words(heap, kind)?),
    };
    Ok(Words {
        place: Some(place),
        wrong,
        right,
    })
}

/// A claim's line without its sets.
fn up_to_sets(line: &[u8]) -> &[u8]
    ensures { result.now ≡ up_to_sets line.now }
{
    let sets = line
        .iter()
        .rev()
        .position(|b| *b == b',')
        .unwrap_or(line.len());
    &line[..line.len().saturating_sub(sets).saturating_sub(1)]
}

/// The line that a claim repeats, if there is one.
fn repeated_text(heap: Global, number: Option<usize>) -> Result<String, AllocError>
    ensures { IfOk result (λ t. string_bytes t ≡ repeated_text number) }
{
    match number {
        Some(number) => format!(in heap; "line {number} claims under the same article and legs"),
        None => String::from_str(
            heap,
            "an earlier line claims under the same article and legs",
        ),
    }
}

impl BadLine<'_> {
    /// No line, or one that is not ended.
    fn no_line(&self, heap: Global) -> Result<Words, AllocError>
        ensures { IfOk result (λ w. said w
            ≡ no_line_words self.now.line.now self.now.place self.now.due.now) }
    {
        if self.line.is_empty() {
            return plain(
                heap,
                Some(self.place),
                "the file ends where a line is due",
                self.due,
            );
        }
        plain(
            heap,
            Some(self.place),
            "the line is not ended",
            "every line is ended by a line feed (byte 10), the last one too",
        )
    }

    /// A key that may not stand there.
    fn wrong_key(&self, heap: Global) -> Result<Words, AllocError>
        ensures { IfOk result (λ w. said w
            ≡ wrong_key_words self.now.line.now self.now.place self.now.due.now) }
    {
        Ok(Words {
            place: Some(self.place),
            wrong: key_words(heap, LineKind::of(self.line))?,
            right: String::from_str(heap, self.due)?,
        })
    }

    /// A field that is bad, missing or too many.
    fn ill_formed(&self, heap: Global, kind: LineKind) -> Result<Words, AllocError>
        ensures { IfOk result (λ w. said w
            ≡ ill_formed_words self.now.line.now self.now.place kind) }
    {
        let there = begins_at(self.line, kind.key(), self.place);
        let at = field_at(self.line, kind.key(), self.place);
        // A missing field would come after the one that ends at the place.
        let field = if there { at } else { at.saturating_add(1) };
        field_words(heap, kind, self.place, field, there)
    }

    /// The earlier line that is equal up to its last comma.
    fn same_before(&self) -> Option<usize>
        ensures { result ≡ same_before self.now.file.now self.now.number self.now.line.now }
    {
        let same = up_to_sets(self.line);
        (1..self.number).find(|number| up_to_sets(lines::at(self.file, *number)) == same)
    }

    /// A claim of an earlier line's article and legs.
    fn repeated(&self, heap: Global) -> Result<Words, AllocError>
        ensures { IfOk result (λ w. said w
            ≡ repeated_words self.now.file.now self.now.number self.now.line.now self.now.place) }
    {
        Ok(Words {
            place: Some(self.place),
            wrong: repeated_text(heap, self.same_before())?,
            right: String::from_str(
                heap,
                "one line of claim= for an article and its legs, with all its sets",
            )?,
        })
    }

    /// A bad line by its cause.
    pub(crate) fn words(&self, heap: Global, cause: LineCause) -> Result<Words, AllocError>
        ensures { IfOk result (λ w. said w
            ≡ bad_words self.now.file.now self.now.number self.now.line.now self.now.place
            self.now.due.now cause) }
    {
        match cause {
            LineCause::NoLine => self.no_line(heap),
            LineCause::WrongKey => self.wrong_key(heap),
            LineCause::IllFormed => match LineKind::of(self.line) {
                Some(kind) => self.ill_formed(heap, kind),
                None => self.wrong_key(heap),
            },
            LineCause::Repeated => self.repeated(heap),
        }
    }
}
