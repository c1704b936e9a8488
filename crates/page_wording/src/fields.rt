//! The fields of a line: where each begins, and which stands at a place.
ghost use Rattle.std.specs.Prelude.{◌≡◌};
ghost use Rattle.page_wording.specs.Fields.{place_of, field_number_at, begins_at};

/// Where a field begins, from 1: after the equals sign, or after a comma. The line's first byte where there is no such field.
pub fn place_of(line: &[u8], field: usize) -> usize
    ensures { result ≡ place_of line.now field }
{
    let before = line
        .iter()
        .enumerate()
        .filter(|(_, b)| matches!(**b, b'=' | b','))
        .nth(field.saturating_sub(1));
    match before {
        Some((i, _)) => i + 2,
        None => 1,
    }
}

/// The number of the field at a place, from 1, where a line begins with a key.
pub fn field_at(line: &[u8], key: &str, place: usize) -> usize
    ensures { result ≡ field_number_at line.now key.now place }
{
    let commas = line
        .iter()
        .take(place.saturating_sub(1))
        .skip(key.len())
        .filter(|b| **b == b',')
        .count();
    commas + 1
}

/// Whether a field begins at a place: it does after the key, and after a comma.
pub fn begins_at(line: &[u8], key: &str, place: usize) -> bool
    ensures { result ≡ begins_at line.now key.now place }
{
    place == key.len() + 1 || matches!(line.get(place.saturating_sub(2)), Some(b','))
}
