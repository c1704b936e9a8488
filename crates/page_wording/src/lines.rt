//! The lines of a file by their numbers, from 1.
ghost use Rattle.std.specs.Prelude.{◌≡◌, ◌-◌, ◌≤◌, length};
ghost use Rattle.std.specs.List.{after_first};
ghost use Rattle.page_wording.specs.Lines.{ends_line, rest_after, line_at, before_line};

/// What stands after the first line.
fn after(bytes: &[u8]) -> &[u8]
    ensures value { result.now ≡ after_first ends_line bytes.now }
    ensures shorter { length result.now ≤ length bytes.now }
{
    let n = bytes
        .iter()
        .position(|b| *b == b'\n')
        .unwrap_or(bytes.len());
    bytes.get(n + 1..).unwrap_or(&[])
}

/// The file from a line on.
fn from(file: &[u8], number: usize) -> &[u8]
    ensures value { result.now ≡ rest_after (number - 1) file.now }
    ensures shorter { length result.now ≤ length file.now }
{
    let mut rest = file;
    for _ in 0..number.saturating_sub(1) {
        rest = after(rest);
    }
    rest
}

/// A line without its ending byte; nothing where there is none.
pub fn at(file: &[u8], number: usize) -> &[u8]
    ensures { result.now ≡ line_at file.now number }
{
    let rest = from(file, number);
    let n = rest.iter().position(|b| *b == b'\n').unwrap_or(rest.len());
    &rest[..n]
}

/// All that stands before a line.
pub fn before(file: &[u8], number: usize) -> &[u8]
    ensures { result.now ≡ before_line file.now number }
{
    &file[..file.len() - from(file, number).len()]
}
