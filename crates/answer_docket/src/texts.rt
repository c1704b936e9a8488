//! The answer as text.
ghost use Rattle.answer_docket.specs.Texts.{verdict_text, summary_text, fault_text, answer_text};
ghost use Rattle.std.specs.Prelude.{Some};

use crate::{Answer, FileFault, Summary, Verdict};
use file_writing::OrNone;
use std::fmt;

impl fmt::Display for Verdict {
    ghost output = { λ v. Some (verdict_text v) };

    fn fmt<W: fmt::Write>(&self, f: &mut fmt::Formatter<W>) -> fmt::Result {
        f.write_str(match self {
            Verdict::Least => "least",
            Verdict::Gap => "gap",
            Verdict::Absent => "none",
        })
    }
}

/// Positions held, claims standing, total, floor and verdict, a line each.
impl fmt::Display for Summary {
    ghost output = { λ s. Some (summary_text s) };

    fn fmt<W: fmt::Write>(&self, f: &mut fmt::Formatter<W>) -> fmt::Result {
        write!(
            f,
            "positions={}\nclaims={}\ntotal={}\nfloor={}\nverdict={}\n",
            self.positions,
            self.claims,
            self.total,
            OrNone(self.floor),
            self.verdict(),
        )
    }
}

/// The number and four details.
impl fmt::Display for FileFault {
    ghost output = { λ f. Some (fault_text f) };

    fn fmt<W: fmt::Write>(&self, f: &mut fmt::Formatter<W>) -> fmt::Result {
        writeln!(f, "refused={},{}", self.number(), self.details())
    }
}

impl<T: fmt::Display> fmt::Display for Answer<T> {
    ghost output = { λ a. answer_text T.output a.0 };

    fn fmt<W: fmt::Write>(&self, f: &mut fmt::Formatter<W>) -> fmt::Result {
        match &self.0 {
            Ok(answer) => write!(f, "{answer}"),
            Err(fault) => write!(f, "{fault}"),
        }
    }
}
