//! A claim as text.
ghost use Rattle.std.specs.Prelude.{Some};
ghost use Rattle.certificate_pairing.specs.Texts.{claim_text};

use crate::Claim;
use std::fmt;

/// Five numbers, with commas between them.
impl fmt::Display for Claim {
    ghost output = { λ c. Some (claim_text c) };

    fn fmt<W: fmt::Write>(&self, f: &mut fmt::Formatter<W>) -> fmt::Result {
        write!(
            f,
            "{},{},{},{},{}",
            self.article, self.first, self.second, self.third, self.sets
        )
    }
}
