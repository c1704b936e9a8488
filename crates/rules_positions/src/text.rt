//! A position as text.
ghost use Rattle.std.specs.Prelude.{Some};
ghost use Rattle.rules_positions.specs.Texts.{side_text, kind_text, record_text};

use crate::record::Record;
use crate::{Kind, Side};
use std::fmt;

/// By its letter.
impl fmt::Display for Side {
    ghost output = { λ s. Some (side_text s) };

    fn fmt<W: fmt::Write>(&self, f: &mut fmt::Formatter<W>) -> fmt::Result {
        let side = char::from(*self);
        write!(f, "{side}")
    }
}

/// By its letter.
impl fmt::Display for Kind {
    ghost output = { λ k. Some (kind_text k) };

    fn fmt<W: fmt::Write>(&self, f: &mut fmt::Formatter<W>) -> fmt::Result {
        let kind = char::from(*self);
        write!(f, "{kind}")
    }
}

/// Six fields, with commas between them.
impl fmt::Display for Record {
    ghost output = { λ r. Some (record_text r) };

    fn fmt<W: fmt::Write>(&self, f: &mut fmt::Formatter<W>) -> fmt::Result {
        write!(
            f,
            "{},{},{},{},{},{}",
            self.side, self.kind, self.strike, self.days, self.price, self.quantity
        )
    }
}
