//! Lines of positions, claims and marks.
ghost use Rattle.std.specs.Prelude.{◌≡◌, ℕ, List, ◌++◌, IfOk, string_bytes};
ghost use Rattle.std.specs.List.{flat_map};
ghost use Rattle.file_writing.specs.Texts.{ended, PrintsAs};

use std::alloc::{AllocError, Global};
use std::fmt;

/// A line for each item: the key, and then the item.
pub(crate) fn lines<T: fmt::Display>(
    heap: Global,
    key: &str,
    items: &[T],
) -> Result<String, AllocError>
    ensures { (text : T → List ℕ) → PrintsAs T.output text → IfOk result (λ t. string_bytes t
        ≡ flat_map (λ x. ended (key.now ++ text x)) items.now) }
{
    let mut out = String::new(heap);
    for item in items {
        writeln!(out, "{key}{item}")?;
    }
    Ok(out)
}
