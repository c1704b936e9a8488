//! What a file is answered: its figures, or why it is refused; and the same as text.
#![tactic(auto)]

ghost use Rattle.std.specs.Prelude.{◌≡◌};
ghost use Rattle.answer_docket.specs.Answers.{from_read, from_certificate, file_number, file_details, verdict_of};

mod figures;
mod texts;

use calls_docket::{Details, Refusal};
use certificate_certify::CertifyFault;
pub use figures::answer_to;
use file_head::faults::ReadFault;

/// Why a file is refused: it is too long, it cannot be read, or its marks are not certified.
#[derive(Clone, Copy, Debug, PartialEq, Eq)]
pub enum FileFault {
    TooLong,
    Read(ReadFault),
    Certify(CertifyFault),
}

/// Positions held, claims standing, the total in parts, and the floor of the marks where there are marks.
#[derive(Clone, Copy, Debug, PartialEq, Eq)]
pub struct Summary {
    pub positions: usize,
    pub claims: usize,
    pub total: u128,
    pub floor: Option<i128>,
}

/// What the floor says of the total: it meets it, it lies under it, or there is none.
#[derive(Clone, Copy, Debug, PartialEq, Eq)]
pub enum Verdict {
    Least,
    Gap,
    Absent,
}

/// What a file is answered, or why it is refused: a type of its own, so that either is printed by one Display.
#[derive(Clone, Debug, PartialEq, Eq, Drop)]
pub struct Answer<T>(pub Result<T, FileFault>);

impl From<ReadFault> for FileFault {
    ghost from_gives = { λ x y. y ≡ from_read x };

    fn from(value: ReadFault) -> FileFault
        ensures { result ≡ from_read value }
    {
        FileFault::Read(value)
    }
}

impl From<CertifyFault> for FileFault {
    ghost from_gives = { λ x y. y ≡ from_certificate x };

    fn from(value: CertifyFault) -> FileFault
        ensures { result ≡ from_certificate value }
    {
        FileFault::Certify(value)
    }
}

impl FileFault {
    /// The number by which the refusal is known, which the file format fixes.
    pub fn number(self) -> u8
        ensures { result ≡ file_number self }
    {
        match self {
            FileFault::TooLong => 22,
            FileFault::Read(fault) => fault.number(),
            FileFault::Certify(fault) => Refusal::from(fault).number(),
        }
    }

    /// What is returned with the number.
    pub fn details(self) -> Details
        ensures { result ≡ file_details self }
    {
        match self {
            FileFault::TooLong => Details::default(),
            FileFault::Read(fault) => fault.details(),
            FileFault::Certify(fault) => Refusal::from(fault).details(),
        }
    }
}

impl Summary {
    /// Where the floor meets the total, the total is the least.
    pub fn verdict(&self) -> Verdict
        ensures { result ≡ verdict_of self.now.total self.now.floor }
    {
        match self.floor {
            None => Verdict::Absent,
            Some(floor) if u128::try_from(floor).is_ok_and(|floor| floor == self.total) => {
                Verdict::Least
            }
            Some(_) => Verdict::Gap,
        }
    }
}
