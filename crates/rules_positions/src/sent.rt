//! An entry as text.
ghost use Rattle.std.specs.Prelude.{Some};
ghost use Rattle.rules_positions.specs.Texts.{entry_text};

use crate::Entry;
use std::fmt;

/// Six fields, with commas between them, as a record's. Each prints its own, a record's side and kind by their types: a function for both would take the six one by one.
impl fmt::Display for Entry {
    ghost output = { λ e. Some (entry_text e) };

    fn fmt<W: fmt::Write>(&self, f: &mut fmt::Formatter<W>) -> fmt::Result {
        write!(
            f,
            "{},{},{},{},{},{}",
            self.side, self.kind, self.strike, self.days, self.price, self.quantity
        )
    }
}
