//! What is said of a line at fault.
ghost use Rattle.std.specs.Prelude.{◌≡◌, Some, IfOk};
ghost use Rattle.page_refusals.specs.Words.{said, saying};

use std::alloc::{AllocError, Global};

/// What is wrong with a line and what would be right, in words; and the byte of the line that is marked, from 1, if one is.
#[derive(Drop)]
pub struct Words {
    pub place: Option<usize>,
    pub wrong: String,
    pub right: String,
}

/// Words that name no number but those of the rules.
pub(crate) fn plain(
    heap: Global,
    place: Option<usize>,
    wrong: &str,
    right: &str,
) -> Result<Words, AllocError>
    ensures { IfOk result (λ w. said w ≡ saying place wrong.now right.now) }
{
    Ok(Words {
        place,
        wrong: String::from_str(heap, wrong)?,
        right: String::from_str(heap, right)?,
    })
}
