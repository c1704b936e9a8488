//! The call that a line sends.
ghost use Rattle.std.specs.Prelude.{◌≡◌, alloc_error};
ghost use Rattle.answer_session.specs.Sent.{call_of, anywhere, ReadAs};
ghost use Rattle.answer_session.specs.Lines.{word_at, call_at};
ghost use Rattle.file_head.specs.Faults.{bad_line, from_field};
ghost use Rattle.answer_session.specs.declared.sent.CallFault.TheVariants.{Bad, Memory};

use crate::marks::marks_in;
use calls_serve::Call;
use certificate_pairing::Claim;
use file_body::values::{claim_in, entry_in};
use file_fields::BadField;
use file_fields::values::one_field;
use file_head::faults::{LineCause, LineFault};
use rules_positions::Entry;
use std::alloc::{AllocError, AllocFailed, Global};

/// One of the six calls, with its input as it is sent; any number of marks.
#[derive(Drop)]
pub enum Sent {
    Enter(Entry),
    Claim(Claim),
    Release(Claim),
    Free(u64),
    Total,
    Certify(Vec<i64>),
}

/// Why no call was read: the line is bad, or there is no memory for its marks.
#[derive(Clone, Copy)]
pub enum CallFault {
    Bad(LineFault),
    Memory(AllocError),
}

impl From<LineCause> for CallFault {
    ghost from_gives = { λ x y. y ≡ Bad (bad_line x) };

    fn from(cause: LineCause) -> CallFault {
        CallFault::Bad(cause.into())
    }
}

impl From<BadField> for CallFault {
    ghost from_gives = { λ x y. y ≡ Bad (from_field x) };

    fn from(value: BadField) -> CallFault {
        CallFault::Bad(value.into())
    }
}

impl<T: Drop> From<AllocFailed<T>> for CallFault {
    ghost from_gives = { λ _ y. y ≡ Memory alloc_error };

    fn from(value: AllocFailed<T>) -> CallFault {
        CallFault::Memory(value.into())
    }
}

impl Sent {
    /// The call, with its marks lent.
    pub(crate) fn call(&self) -> Call<'_>
        ensures { anywhere result ≡ call_of self.now }
    {
        match self {
            Sent::Enter(entry) => Call::Enter(*entry),
            Sent::Claim(claim) => Call::Claim(*claim),
            Sent::Release(claim) => Call::Release(*claim),
            Sent::Free(position) => Call::Free(*position),
            Sent::Total => Call::Total,
            Sent::Certify(marks) => Call::Certify(marks.as_slice()),
        }
    }
}

/// The call that a word alone sends.
fn word_in(heap: Global, line: &[u8]) -> Result<Sent, CallFault>
    ensures { ReadAs call_of result (word_at line.now) }
{
    match line {
        b"total" => Ok(Sent::Total),
        b"certify" => Ok(Sent::Certify(Vec::new(heap))),
        _ => Err(LineCause::WrongKey.into()),
    }
}

/// The call that a line sends: tests of the prefix in turn, since each name has its own value.
#[tactic(auto, unfolding(crate::specs::Lines::call_at))]
pub(crate) fn call_in(heap: Global, line: &[u8]) -> Result<Sent, CallFault>
    ensures { ReadAs call_of result (call_at line.now) }
{
    if let Some(value) = line.strip_prefix(b"enter=") {
        return Ok(Sent::Enter(entry_in(value, 7)?));
    }
    if let Some(value) = line.strip_prefix(b"claim=") {
        return Ok(Sent::Claim(claim_in(value, 7)?));
    }
    if let Some(value) = line.strip_prefix(b"release=") {
        return Ok(Sent::Release(claim_in(value, 9)?));
    }
    if let Some(value) = line.strip_prefix(b"free=") {
        return Ok(Sent::Free(one_field(value, 6)?));
    }
    if let Some(value) = line.strip_prefix(b"certify=") {
        return Ok(Sent::Certify(marks_in(heap, value, 9)?));
    }
    word_in(heap, line)
}
