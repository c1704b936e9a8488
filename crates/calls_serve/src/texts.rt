//! Calls and what is granted as text.
ghost use Rattle.std.specs.Prelude.{Some};
ghost use Rattle.calls_serve.specs.Texts.{call_text, granted_text};

use crate::{Call, Granted};
use certificate_certify::Certificate;
use std::fmt;

/// The name of the call, and after it what it is sent; a space before each mark.
impl<'a> fmt::Display for Call<'a> {
    ghost output = { λ c. Some (call_text c) };

    fn fmt<W: fmt::Write>(&self, f: &mut fmt::Formatter<W>) -> fmt::Result {
        match self {
            Call::Enter(entry) => write!(f, "enter={entry}"),
            Call::Claim(claim) => write!(f, "claim={claim}"),
            Call::Release(claim) => write!(f, "release={claim}"),
            Call::Free(position) => write!(f, "free={position}"),
            Call::Total => f.write_str("total"),
            Call::Certify(marks) => {
                f.write_str("certify")?;
                for mark in marks.iter() {
                    write!(f, " {mark}")?;
                }
                Ok(())
            }
        }
    }
}

/// The number answered; of a certificate the total and the floor, with a comma between.
impl fmt::Display for Granted {
    ghost output = { λ g. Some (granted_text g) };

    fn fmt<W: fmt::Write>(&self, f: &mut fmt::Formatter<W>) -> fmt::Result {
        match self {
            Granted::Entered(position) => write!(f, "{position}"),
            Granted::Claimed(sets) | Granted::Released(sets) => write!(f, "{sets}"),
            Granted::Free(units) => write!(f, "{units}"),
            Granted::Total(parts) => write!(f, "{parts}"),
            Granted::Certified(Certificate { total, floor }) => write!(f, "{total},{floor}"),
        }
    }
}
