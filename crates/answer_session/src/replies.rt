//! The replies to lines, as text.
ghost use Rattle.std.specs.Prelude.{◌≡◌, Some};
ghost use Rattle.answer_session.specs.Sessions.{from_reply};
ghost use Rattle.answer_session.specs.Texts.{reply_text};

use answer_docket::FileFault;
use calls_docket::Refusal;
use calls_serve::{Granted, Reply};
use file_head::faults::ReadFault;
use std::fmt;

/// The reply to a line: what its call is granted, the refusal of its call, or what is wrong with the line.
#[derive(Clone, Copy)]
pub enum LineReply {
    Granted(Granted),
    Refused(Refusal),
    Bad(ReadFault),
}

impl From<Reply> for LineReply {
    ghost from_gives = { λ x y. y ≡ from_reply x };

    fn from(value: Reply) -> LineReply
        ensures { result ≡ from_reply value }
    {
        match value {
            Ok(granted) => LineReply::Granted(granted),
            Err(refusal) => LineReply::Refused(refusal),
        }
    }
}

/// What is granted, the refusal of the call, or that of a bad line.
impl fmt::Display for LineReply {
    ghost output = { λ r. Some (reply_text r) };

    fn fmt<W: fmt::Write>(&self, f: &mut fmt::Formatter<W>) -> fmt::Result {
        match self {
            LineReply::Granted(granted) => writeln!(f, "granted={granted}"),
            LineReply::Refused(refusal) => writeln!(f, "refused={refusal}"),
            LineReply::Bad(fault) => write!(f, "{}", FileFault::Read(*fault)),
        }
    }
}
