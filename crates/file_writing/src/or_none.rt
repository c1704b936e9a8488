//! What may be none, as text.
ghost use Rattle.file_writing.specs.Texts.{text_or_none};

use std::fmt;

/// A value, or the word none where there is none.
#[derive(Clone, Debug, PartialEq, Eq, Drop)]
pub struct OrNone<T>(pub Option<T>);

impl<T: fmt::Display> fmt::Display for OrNone<T> {
    ghost output = { λ o. text_or_none T.output o.0 };

    fn fmt<W: fmt::Write>(&self, f: &mut fmt::Formatter<W>) -> fmt::Result {
        match &self.0 {
            Some(value) => write!(f, "{value}"),
            None => write!(f, "none"),
        }
    }
}
