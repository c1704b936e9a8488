//! A line as it stands in the file, with a mark under one of its bytes; nothing is wider than 100 columns.
ghost use Rattle.std.specs.Prelude.{◌≡◌, ◌<◌, ◌≤◌, ◌++◌, map, IfOk, OnOk, string_bytes};
ghost use Rattle.page_wording.specs.Shown.{shown_byte, hidden, dots, spaces, empty_note, mark_text, part_text, shown_text};

use std::alloc::{AllocError, Global};

/// How many bytes of a line are shown.
const SHOWN: usize = 88;

/// A byte that is no printable ASCII is shown as ?.
fn printable(byte: u8) -> char
    ensures value { result ≡ shown_byte byte }
    ensures ascii { result < 128 }
{
    match byte {
        b' '..=b'~' => char::from(byte),
        _ => '?',
    }
}

/// The bytes that are shown before the one at a place are at most 79, so that it is seen.
fn bytes_hidden(place: usize) -> usize
    ensures { result ≡ hidden place }
{
    if place > 80 { place - 60 } else { 0 }
}

/// Three points stand for bytes that are not shown.
fn dots(cut: bool) -> &'static str
    ensures { result.now ≡ dots cut }
{
    if cut { "..." } else { "" }
}

/// Said of a line with nothing on it.
fn nothing(line: &[u8]) -> &'static str
    ensures { result.now ≡ empty_note line.now }
{
    if line.is_empty() {
        "(there is nothing on this line)"
    } else {
        ""
    }
}

/// So many spaces.
#[tactic(auto, unfolding(crate::specs::Shown::spaces))]
pub fn spaces(heap: Global, count: usize) -> Result<String, AllocError>
    ensures { IfOk result (λ t. string_bytes t ≡ spaces count) }
{
    " ".repeat(heap, count)
}

fn printed(out: &mut String, bytes: &[u8]) -> Result<(), AllocError>
    ensures { OnOk result (string_bytes out.new
        ≡ string_bytes out.old ++ map shown_byte bytes.now) }
{
    for byte in bytes {
        out.push(printable(*byte))?;
    }
    Ok(())
}

/// The mark under the byte at a place, where so many bytes before are not shown.
fn mark(heap: Global, place: Option<usize>, hidden: usize) -> Result<String, AllocError>
    ensures { IfOk result (λ t. string_bytes t ≡ mark_text place hidden) }
{
    let Some(place) = place else {
        return String::from_str(heap, "");
    };
    let cut = if hidden > 0 { 3 } else { 0 };
    let points = spaces(heap, cut)?;
    let before = spaces(heap, place.saturating_sub(1).saturating_sub(hidden))?;
    format!(in heap; "  {points}{before}^\n")
}

/// The bytes of a line from the first that is shown.
fn part(out: &mut String, rest: &[u8]) -> Result<(), AllocError>
    ensures { OnOk result (string_bytes out.new ≡ string_bytes out.old ++ part_text rest.now) }
{
    let part = rest.get(..SHOWN).unwrap_or(rest);
    printed(out, part)?;
    out.push_str(dots(rest.len() > SHOWN))
}

/// The line, and a line with the mark. Where bytes of a long line are not shown, three points stand for them.
pub fn shown(heap: Global, line: &[u8], place: Option<usize>) -> Result<String, AllocError>
    ensures { IfOk result (λ t. string_bytes t ≡ shown_text line.now place) }
{
    let hidden = bytes_hidden(place.unwrap_or(1));
    let mut out = String::from_str(heap, "  ")?;
    out.push_str(dots(hidden > 0))?;
    part(&mut out, line.get(hidden..).unwrap_or(&[]))?;
    out.push_str(nothing(line))?;
    out.push_str("\n")?;
    let mark = mark(heap, place, hidden)?;
    out.push_str(mark.as_str())?;
    Ok(out)
}
