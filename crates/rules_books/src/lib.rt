//! A book as a docket knows it: four tables that never change, a question for each, and one more by which a search asks less.
#![tactic(auto)]

ghost use Rattle.std.specs.Prelude.{◌≡◌, ◌≤◌, false, length, Some};
ghost use Rattle.rules_articles.specs.Causes.{leg_or_zero};
ghost use Rattle.rules_books.specs.Tables.{Tables, Has, IsLawful, IsRefusedAt};
ghost use Rattle.rules_books.specs.Texts.{book_fault_text};

mod sheets;

use rules_amounts::ContractSize;
use rules_articles::Leg;
use rules_positions::Record;
pub use sheets::Sheet;
use std::error::Error;
use std::fmt;

/// Why a book refuses a set: a cause from 1 to 255, and the leg that it names, if it names one.
/// The cause is a number: the product lets any book have causes of its own.
#[derive(Clone, Copy, Debug, PartialEq, Eq)]
pub struct BookFault {
    pub cause: u8,
    pub leg: Option<Leg>,
}

impl BookFault {
    /// The number of the leg that is named, 0 for none.
    pub fn leg_number(self) -> u8
        ensures value { result ≡ leg_or_zero self.leg }
        ensures bound { result ≤ 3 }
    {
        self.leg.map_or(0, |leg| leg.number())
    }
}

/// The cause, and the number of the leg.
impl fmt::Display for BookFault {
    ghost output = { λ f. Some (book_fault_text f) };

    fn fmt<W: fmt::Write>(&self, f: &mut fmt::Formatter<W>) -> fmt::Result {
        write!(
            f,
            "refused by cause {}, leg {}",
            self.cause,
            self.leg_number()
        )
    }
}

impl Error for BookFault {}

/// Anything that keeps four such tables is a book; the question `may_be_leg` has a body of its own.
/// An article is asked for by its number, from 1: the product fixes the interface so, for any book.
pub trait Book {
    ghost tables: { Self → Tables };

    /// The number of articles; they are numbered from 1.
    fn articles(&self) -> u8
        ensures { result ≡ (tables self.now).articles };

    /// The number of legs of an article.
    fn legs(&self, article: u8) -> u8
        requires { Has (tables self.now) article }
        ensures { result ≡ (tables self.now).legs article };

    /// What one unit, or one contract, of a position requires alone.
    fn alone(&self, size: ContractSize, position: &Record) -> u64
        ensures { result ≡ (tables self.now).alone size.units position.now };

    /// What a set requires under an article, or why it is refused.
    /// A question carries an article that the book has, with all its legs.
    fn paired(&self, size: ContractSize, article: u8, legs: &[Record]) -> Result<u64, BookFault>
        requires has { Has (tables self.now) article }
        requires whole { length legs.now ≡ (tables self.now).legs article }
        ensures { result ≡ (tables self.now).paired size.units article legs.now };

    /// Whether a position may be that leg of a set that the article allows. Where not, every set with it at that leg is refused,
    /// so a search asks about none; a book that cannot tell says that it may.
    fn may_be_leg(&self, article: u8, leg: Leg, position: &Record) -> bool
        requires { Has (tables self.now) article }
        ensures { result ≡ false → IsRefusedAt (tables self.now) article leg position.now }
    {
        true
    }

    ghost lawful: { (b : Self) → IsLawful (tables b) };
}
