//! The marks of a call of certify.
ghost use Rattle.std.specs.Prelude.{◌≡◌, ◌≤◌};
ghost use Rattle.file_fields.specs.Fields.{split};
ghost use Rattle.answer_session.specs.Lines.{marks_at, certify, making};
ghost use Rattle.answer_session.specs.Sent.{ReadAs};

use crate::sent::CallFault;
use file_fields::BadField;
use file_fields::fields::Fields;
use file_fields::numbers::integer_of;
use std::alloc::Global;

/// Any number of marks, of which the first begins at a place of its line.
pub(crate) fn marks_in(heap: Global, value: &[u8], place: usize) -> Result<Vec<i64>, CallFault>
    requires { (1 ≤ place) × (place ≤ 100) }
    ensures { ReadAs (λ v. certify v.items) result
        (making certify (marks_at place (split 44 value.now))) }
{
    let mut marks = Vec::new(heap);
    let mut fields = Fields::new(value, place);
    let mut at = fields.place();
    while let Some(field) = fields.take_field() {
        let mark = integer_of(field).ok_or(BadField { place: at })?;
        marks.push(mark)?;
        at = fields.place();
    }
    Ok(marks)
}
