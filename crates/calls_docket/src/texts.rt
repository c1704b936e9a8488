//! Refusals as text.
ghost use Rattle.std.specs.Prelude.{Some};
ghost use Rattle.calls_docket.specs.Texts.{details_text, refusal_text};

use crate::{Details, Refusal};
use std::fmt;

/// The four details, with commas between.
impl fmt::Display for Details {
    ghost output = { λ d. Some (details_text d) };

    fn fmt<W: fmt::Write>(&self, f: &mut fmt::Formatter<W>) -> fmt::Result {
        write!(f, "{},{},{},{}", self.one, self.two, self.three, self.four)
    }
}

/// The number and the details, with commas between.
impl fmt::Display for Refusal {
    ghost output = { λ r. Some (refusal_text r) };

    fn fmt<W: fmt::Write>(&self, f: &mut fmt::Formatter<W>) -> fmt::Result {
        write!(f, "{},{}", self.number(), self.details())
    }
}
