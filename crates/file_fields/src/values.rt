//! What the fields of a line stand for.
ghost use Rattle.std.specs.Prelude.{◌≡◌, ℕ, ◌≤◌, List, Option as Maybe};
ghost use Rattle.file_fields.specs.Cursors.{fields_left};
ghost use Rattle.file_fields.specs.Fields.{got, field_at, end_at, one_field, split};
ghost use Rattle.file_fields.specs.Numbers.{natural, integer, letter, number_or_none, yes_or_no};

use crate::BadField;
use crate::fields::Fields;
use crate::numbers::{integer_of, natural_of};
use crate::tokens::{Token, token_of};

/// What can stand in a field.
pub trait Value {
    ghost reads: { List ℕ → Maybe Self };

    /// The value that the bytes of a field write.
    fn of_field(field: &[u8]) -> Option<Self>
        ensures { result ≡ reads field.now };
}

/// A number.
impl Value for u64 {
    ghost reads = { natural };

    fn of_field(field: &[u8]) -> Option<u64> {
        match token_of(field)? {
            Token::Number(digits) => natural_of(digits),
            _ => None,
        }
    }
}

/// One letter.
impl Value for char {
    ghost reads = { letter };

    fn of_field(field: &[u8]) -> Option<char> {
        match token_of(field)? {
            Token::Letter([c]) => Some(char::from(*c)),
            _ => None,
        }
    }
}

/// A number that may have a minus sign.
impl Value for i64 {
    ghost reads = { integer };

    fn of_field(field: &[u8]) -> Option<i64> {
        integer_of(field)
    }
}

/// A number, or the word none.
impl Value for Option<u64> {
    ghost reads = { number_or_none };

    fn of_field(field: &[u8]) -> Option<Option<u64>> {
        match field {
            b"none" => Some(None),
            _ => u64::of_field(field).map(Some),
        }
    }
}

/// yes or no.
impl Value for bool {
    ghost reads = { yes_or_no };

    fn of_field(field: &[u8]) -> Option<bool> {
        match field {
            b"yes" => Some(true),
            b"no" => Some(false),
            _ => None,
        }
    }
}

/// The next field.
pub fn take<T: Value + Drop>(f: &mut Fields) -> Result<T, BadField>
    ensures { got result f.new.place (fields_left f.new)
        ≡ field_at T.Value.reads f.old.place (fields_left f.old) }
{
    let place = f.place();

    // A missing field is placed at the ending byte, just before where it would begin.
    let field = f.take_field().ok_or(BadField { place: place - 1 })?;
    T::of_field(field).ok_or(BadField { place })
}

/// No field may be left.
pub fn end(f: &mut Fields) -> Result<(), BadField>
    ensures { result ≡ end_at tt f.old.place (fields_left f.old) }
{
    let place = f.place();
    f.take_field().map_or(Ok(()), |_| Err(BadField { place }))
}

/// The one field of a value that begins at a place of its line.
/// The place is from 1 to 100.
pub fn one_field<T: Value + Drop>(value: &[u8], place: usize) -> Result<T, BadField>
    requires { (1 ≤ place) × (place ≤ 100) }
    ensures { result ≡ one_field T.Value.reads place (split 44 value.now) }
{
    let mut fields = Fields::new(value, place);
    let x = take(&mut fields)?;
    end(&mut fields)?;
    Ok(x)
}
