//! A session of calls on a docket: a line each, and a line printed for each.
#![tactic(auto)]

ghost use Rattle.std.specs.Prelude.{◌≡◌, IfOk, string_bytes};
ghost use Rattle.answer_session.specs.Sessions.{session_text};
ghost use Rattle.answer_session.specs.Laws.{HoldsThroughout};

mod marks;
mod replies;
mod sent;
mod serving;

use serving::Opened;
use std::alloc::{AllocError, Global};

/// All that is printed for the input: the replies to its lines on the docket that its head opens, or why the head is refused.
/// After each line all that should hold of the docket does.
pub fn session(heap: Global, input: &[u8]) -> Result<String, AllocError>
    ensures text { IfOk result (λ t. string_bytes t ≡ session_text input.now) }
    ensures held { HoldsThroughout input.now }
{
    match Opened::new(input) {
        Ok(mut opened) => opened.serve_lines(heap),
        Err(fault) => format!(in heap; "{fault}"),
    }
}
