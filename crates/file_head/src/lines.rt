//! The lines of a file, one after another.
ghost use Rattle.std.specs.Prelude.{◌≡◌, ◌≤◌, length};
ghost use Rattle.std.specs.Option.{option_map as mappedSome};
ghost use Rattle.std.specs.Result.{result_map_both};
ghost use Rattle.file_head.specs.Lines.{left_by, read_by, next_line, value_of, value_line};

use crate::faults::{LineCause, LineFault, ReadFault};
use crate::reader::Reader;
use file_fields::values::{Value, one_field};

impl<'a> Reader<'a> {
    /// The next line without its ending byte, or None at the end of the file.
    pub fn next_line(&mut self) -> Result<Option<&'a [u8]>, ReadFault>
        ensures { left_by self.new (result_map_both (mappedSome (λ x. x.now)) (λ e. e) result)
            ≡ read_by self.old next_line }
    {
        let rest = &self.file[self.at..];
        if rest.is_empty() {
            return Ok(None);
        }
        let n = rest
            .iter()
            .position(|b| *b == b'\n')
            .ok_or(ReadFault::on(self.line_number, LineCause::NoLine))?;
        self.at += n + 1;
        self.line_number += 1;
        Ok(Some(&rest[..n]))
    }
}

/// The value of a line of a key and one field.
/// A key has at most 99 bytes.
fn value_of<T: Value + Drop>(line: &[u8], key: &[u8]) -> Result<T, LineFault>
    requires { length key.now ≤ 99 }
    ensures { result ≡ value_of T.Value.reads key.now line.now }
{
    let value = line.strip_prefix(key).ok_or(LineCause::WrongKey)?;
    Ok(one_field(value, key.len() + 1)?)
}

/// The value of the next line, which is to be a key and one field.
/// Those that call it many times in a row need its definition only as a name, so it is unfolded here alone.
#[tactic(auto, unfolding(crate::specs::Lines::value_line))]
pub(crate) fn value_line<T: Value + Drop>(reader: &mut Reader, key: &[u8]) -> Result<T, ReadFault>
    requires { length key.now ≤ 99 }
    ensures { left_by reader.new result ≡ read_by reader.old (value_line T.Value.reads key.now) }
{
    let line = reader.line_number();
    let bytes = reader
        .next_line()?
        .ok_or(ReadFault::on(line, LineCause::NoLine))?;
    value_of(bytes, key).map_err(|fault| ReadFault::on(line, fault))
}
