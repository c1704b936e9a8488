//! What is wrong with a file.
ghost use Rattle.std.specs.Prelude.{◌≡◌};
ghost use Rattle.file_head.specs.Faults.{line_cause_number, bad_line, from_field, from_sheet, from_call, fault_number, fault_details};

use calls_docket::{Details, Refusal};
use file_fields::BadField;
use rules_market::SheetFault;

/// Why a line is bad.
#[derive(Debug, Clone, Copy, PartialEq, Eq)]
pub enum LineCause {
    NoLine = 1,
    WrongKey = 2,
    IllFormed = 3,
    Repeated = 4,
}

/// What is wrong with a line: it is bad at a place, or the sheet or the call that it ends or stands for is refused.
#[derive(Clone, Copy, Debug, PartialEq, Eq)]
pub enum LineFault {
    Bad { place: usize, cause: LineCause },
    Sheet(SheetFault),
    Call(Refusal),
}

/// The line, from 1, and what is wrong with it.
#[derive(Clone, Copy, Debug, PartialEq, Eq)]
pub struct ReadFault {
    pub line: usize,
    pub fault: LineFault,
}

/// With no field that is bad, the line is bad from its first byte on.
impl From<LineCause> for LineFault {
    ghost from_gives = { λ x y. y ≡ bad_line x };

    fn from(cause: LineCause) -> LineFault {
        LineFault::Bad { place: 1, cause }
    }
}

impl From<BadField> for LineFault {
    ghost from_gives = { λ x y. y ≡ from_field x };

    fn from(value: BadField) -> LineFault
        ensures { result ≡ from_field value }
    {
        LineFault::Bad {
            place: value.place,
            cause: LineCause::IllFormed,
        }
    }
}

impl From<SheetFault> for LineFault {
    ghost from_gives = { λ x y. y ≡ from_sheet x };

    fn from(value: SheetFault) -> LineFault
        ensures { result ≡ from_sheet value }
    {
        LineFault::Sheet(value)
    }
}

impl From<Refusal> for LineFault {
    ghost from_gives = { λ x y. y ≡ from_call x };

    fn from(value: Refusal) -> LineFault
        ensures { result ≡ from_call value }
    {
        LineFault::Call(value)
    }
}

impl LineCause {
    /// The number by which the cause is known.
    pub fn number(self) -> u8
        ensures { result ≡ line_cause_number self }
    {
        self as u8
    }
}

impl ReadFault {
    /// What is wrong on a line.
    pub fn on<F: Into<LineFault>>(line: usize, fault: F) -> ReadFault
        ensures { (result.line ≡ line) × F.converts fault result.fault }
    {
        ReadFault {
            line,
            fault: fault.into(),
        }
    }

    /// The number by which the refusal is known, which the file format fixes.
    pub fn number(self) -> u8
        ensures { result ≡ fault_number self.fault }
    {
        match self.fault {
            LineFault::Bad { .. } => 19,
            LineFault::Sheet(_) | LineFault::Call(_) => 20,
        }
    }

    /// What is returned with the number.
    pub fn details(self) -> Details
        ensures { result ≡ fault_details self.line self.fault }
    {
        match self.fault {
            LineFault::Bad { place, cause } => Details {
                one: self.line,
                two: place,
                three: usize::from(cause.number()),
                ..Details::default()
            },
            LineFault::Sheet(fault) => Details {
                one: self.line,
                two: usize::from(fault.number()),
                ..Details::default()
            },
            LineFault::Call(refusal) => {
                let details = refusal.details();
                Details {
                    one: self.line,
                    two: usize::from(refusal.number()),
                    three: details.one,
                    four: details.two,
                }
            }
        }
    }
}
