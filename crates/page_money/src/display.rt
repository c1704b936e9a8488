//! An amount as text in dollars and cents.
ghost use Rattle.std.specs.Prelude.{◌≡◌, Some, IfOk, string_bytes, decimal};
ghost use Rattle.page_money.specs.Amounts.{dollars_amount};
ghost use Rattle.page_money.specs.Digits.{with_commas};
ghost use Rattle.page_money.specs.Texts.{dollars_text};
ghost use Rattle.page_money.specs.Reading.{StandsFor};

use crate::Dollars;
use std::alloc::{AllocError, Global};
use std::fmt::{self, Display};

/// A dollar, in parts.
const DOLLAR: u128 = 1_000_000;

/// A cent, in parts.
const CENT: u128 = 10_000;

/// A number with a comma before each three digits.
#[derive(Clone, Copy)]
struct Grouped(u128);

impl Display for Grouped {
    ghost output = { λ n. Some (with_commas (decimal n.0)) };

    fn fmt<W: fmt::Write>(&self, f: &mut fmt::Formatter<W>) -> fmt::Result {
        if self.0 < 1_000 {
            return write!(f, "{}", self.0);
        }
        // By a call: a recursion through write! gets no generated proof.
        Grouped(self.0 / 1_000).fmt(f)?;
        write!(f, ",{:03}", self.0 % 1_000)
    }
}

/// A minus sign below 0, whole dollars, two digits of cents, and four digits more where the amount is no whole number of cents.
impl Display for Dollars {
    ghost output = { λ d. Some (dollars_text (dollars_amount d)) };

    fn fmt<W: fmt::Write>(&self, f: &mut fmt::Formatter<W>) -> fmt::Result {
        let sign = if self.negative { "-" } else { "" };
        let dollars = Grouped(self.parts / DOLLAR);
        let cents = self.parts % DOLLAR / CENT;
        let rest = self.parts % CENT;
        write!(f, "{sign}{dollars}.{cents:02}")?;
        if rest != 0 {
            write!(f, "{rest:04}")?;
        }
        Ok(())
    }
}

impl Dollars {
    /// The amount's text, for a column: a String is padded to a width.
    pub fn text(self, heap: Global) -> Result<String, AllocError>
        ensures value { IfOk result (λ t. string_bytes t ≡ dollars_text (dollars_amount self)) }
        ensures again { IfOk result (λ t. StandsFor (string_bytes t) (dollars_amount self)) }
    {
        format!(in heap; "{self}")
    }
}
