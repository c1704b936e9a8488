//! Breaches of fairness, and the search for the first.
#![tactic(auto)]

ghost use Rattle.std.specs.Prelude.{◌≡◌, ◌-◌, ◌^◌, false, length, pos, ◌*ℤ◌, neg_ℤ, ◌≤ℤ◌, Some, int_lt, slice_index_or};
ghost use Rattle.rules_books.specs.Tables.{Has};
ghost use Rattle.certificate_pairing.specs.Pairing.{at, mark, lot, worth, answer, distinct};
ghost use Rattle.certificate_fairness.specs.Search.{legs_from, legs_in, set_at, alone_breach, set_breach, third_leg, second_leg, first_leg, first_alone, first_article, first_breach, AreWithinLimits, NoneExactlyIfFair};
ghost use Rattle.certificate_fairness.specs.First.{IsFirst};
ghost use Rattle.rules_articles.specs.declared.Leg.TheVariants as leg;
ghost use Rattle.certificate_fairness.specs.NotTried.{FlagsOnlyRefused};

use certificate_pairing::{Marked, answer, at, lot, mark, mark_times};
use rules_amounts::ContractSize;
use rules_articles::Leg;
use rules_books::{Book, BookFault};
use rules_positions::Record;

/// The positions that are the legs of a set: two, or three.
#[derive(Clone, Copy, Debug, PartialEq, Eq)]
pub struct Legs {
    pub first: u8,
    pub second: u8,
    pub third: Option<u8>,
}

/// A position alone, or an article with its legs.
#[derive(Clone, Copy, Debug, PartialEq, Eq)]
pub enum Breach {
    Alone { position: u8 },
    Set { article: u8, legs: Legs },
}

/// Positions with a mark for each, over a book and a contract size. Both are read by one number, since what is searched for is the number of a position.
/// It has no Model: its value may hold no function, and a book's tables are functions.
#[derive(Drop)]
struct Search<'a, B: Book> {
    book: &'a B,
    size: ContractSize,
    marked: Marked<'a>,
}

/// Whether marks pass a requirement.
fn passes(marks: i128, requirement: u64) -> bool
    ensures { result ≡ int_lt (pos requirement) marks }
{
    marks > i128::from(requirement)
}

/// Whether a position is refused, by its number, where 0 is read as 1; beyond the 32nd none is.
fn is_refused(refused: &[bool; 32], position: u8) -> bool
    ensures { result ≡ slice_index_or refused.now (position - 1) false }
{
    let i = usize::from(position).saturating_sub(1);
    refused.get(i).copied().unwrap_or(false)
}

/// Whether no position is a leg twice.
fn distinct(legs: Legs) -> bool
    ensures { result ≡ distinct (legs_in legs) }
{
    legs.first != legs.second
        && legs
            .third
            .is_none_or(|third| third != legs.first && third != legs.second)
}

/// The mark of what a set takes of a leg.
fn leg_worth(size: ContractSize, held: &[Record], marks: &[i64], leg: u8) -> i128
    ensures value { result ≡ mark marks.now leg *ℤ pos (lot size.units held.now leg) }
    ensures low { neg_ℤ (pos (2 ^ 95)) ≤ℤ result }
    ensures high { result ≤ℤ pos (2 ^ 95) }
{
    let units = lot(size, held, u64::from(leg));
    mark_times(mark(marks, u64::from(leg)), u32::from(units))
}

/// The marks of what a set takes of its legs, in parts.
pub fn worth(size: ContractSize, held: &[Record], marks: &[i64], legs: Legs) -> i128
    ensures { result ≡ worth size.units held.now marks.now (legs_in legs) }
{
    let two = leg_worth(size, held, marks, legs.first) + leg_worth(size, held, marks, legs.second);
    // A match: of a closure called at most once that reads what is around it, the proof learns nothing.
    match legs.third {
        None => two,
        Some(third) => two + leg_worth(size, held, marks, third),
    }
}

impl<B: Book> Search<'_, B> {
    ghost use Rattle.certificate_fairness.specs.Searches.{asked};

    /// The number of positions; they are numbered from 1. At most 32, so the cast loses nothing.
    fn positions(&self) -> u8
        ensures { result ≡ length self.now.marked.held.now }
    {
        self.marked.held.len() as u8
    }

    /// Positions that the book refuses at a leg of an article, in their order: where it is true, no set with it there is allowed.
    /// The book is asked here once of each position; inside the loops it would be asked again and again.
    fn refused_positions(&self, article: u8, leg: Leg) -> [bool; 32]
        requires { Has (B.tables self.now.book.now) article }
        ensures { FlagsOnlyRefused (B.tables self.now.book.now) self.now.marked.held.now
            article leg result }
    {
        let mut refused = [false; 32];
        for (i, record) in self.marked.held.iter().enumerate() {
            refused[i] = !self.book.may_be_leg(article, leg, record);
        }
        refused
    }

    /// The first breach of a set, article by article.
    fn first_article(&self) -> Option<Breach>
        ensures { result ≡ asked first_article B.tables self.now }
    {
        (1..=self.book.articles()).find_map(
            |article|
                requires { Has (B.tables self.now.book.now) article }
            {
                let under = Under {
                    search: self,
                    article,
                    refused_first: self.refused_positions(article, Leg::First),
                    refused_second: self.refused_positions(article, Leg::Second),
                    refused_third: self.refused_positions(article, Leg::Third),
                };
                under.first_leg()
            },
        )
    }

    /// The breach of a position alone, if it is one.
    fn alone_breach(&self, position: u8) -> Option<Breach>
        ensures { result ≡ asked alone_breach B.tables self.now position }
    {
        let Marked { held, marks, .. } = self.marked;
        let p = u64::from(position);
        let requirement = self.book.alone(self.size, &at(held, p));
        passes(i128::from(mark(marks, p)), requirement).then_some(Breach::Alone { position })
    }

    /// The first breach of a position alone.
    fn first_alone(&self) -> Option<Breach>
        ensures { result ≡ asked first_alone B.tables self.now }
    {
        (1..=self.positions()).find_map(|position| self.alone_breach(position))
    }

    /// The first breach: of a position alone, and then of a set.
    fn first_breach(&self) -> Option<Breach>
        ensures { result ≡ asked first_breach B.tables self.now }
    {
        // A match: of a closure in generic code that takes no argument, the proof knows nothing.
        match self.first_alone() {
            None => self.first_article(),
            found => found,
        }
    }
}

/// A search among the sets of one article, which the book has. Positions that the book refuses at a leg are not tried there. No Model, as for Search.
#[derive(Drop)]
struct Under<'s, 'a, B: Book> {
    search: &'s Search<'a, B>,
    article: u8,
    refused_first: [bool; 32],
    refused_second: [bool; 32],
    refused_third: [bool; 32],
    ghost has: { Has (B.tables search.now.book.now) article },
    ghost only_first: { FlagsOnlyRefused (B.tables search.now.book.now) search.now.marked.held.now
        article leg.First refused_first },
    ghost only_second: { FlagsOnlyRefused (B.tables search.now.book.now) search.now.marked.held.now
        article leg.Second refused_second },
    ghost only_third: { FlagsOnlyRefused (B.tables search.now.book.now) search.now.marked.held.now
        article leg.Third refused_third },
}

impl<B: Book> Under<'_, '_, B> {
    ghost use Rattle.certificate_fairness.specs.Searches.{asked};

    /// What the book says of a set, all of whose legs are there.
    /// A match: with two legs there is no third number.
    fn answer(&self, legs: Legs) -> Result<u64, BookFault>
        requires { length (legs_in legs)
            ≡ (B.tables self.now.search.now.book.now).legs self.now.article }
        ensures { result
            ≡ answer
            (B.tables self.now.search.now.book.now) self.now.search.now.size.units
            self.now.search.now.marked.held.now (set_at self.now.article legs) }
    {
        let Search { book, size, marked } = *self.search;
        let first = u64::from(legs.first);
        let second = u64::from(legs.second);
        match legs.third {
            None => answer(book, size, marked.held, self.article, &[first, second]),
            Some(third) => {
                let third = u64::from(third);
                answer(
                    book,
                    size,
                    marked.held,
                    self.article,
                    &[first, second, third],
                )
            }
        }
    }

    /// The breach of one set, if it is one. It asks what `answer` asks.
    /// Inlined, so that what the loops around it leave alone is read once, and not for each set.
    #[inline(always)]
    fn set_breach(&self, legs: Legs) -> Option<Breach>
        requires { length (legs_in legs)
            ≡ (B.tables self.now.search.now.book.now).legs self.now.article }
        ensures { result ≡ asked set_breach B.tables self.now.search.now self.now.article legs }
    {
        if !distinct(legs) {
            return None;
        }
        let article = self.article;
        let requirement = self.answer(legs).ok()?;
        let Search { size, marked, .. } = *self.search;
        let worth = worth(size, marked.held, marked.marks, legs);
        passes(worth, requirement).then_some(Breach::Set { article, legs })
    }

    /// The breach of a set of three, if it is one. A function and no closure, since it asks that the article has three legs. Inlined, as the above is.
    #[inline(always)]
    fn three_breach(&self, first: u8, second: u8, third: u8) -> Option<Breach>
        requires { (B.tables self.now.search.now.book.now).legs self.now.article ≡ 3 }
        ensures { result ≡ asked set_breach B.tables self.now.search.now
            self.now.article (legs_from first second (Some third)) }
    {
        if is_refused(&self.refused_third, third) {
            return None;
        }
        self.set_breach(Legs {
            first,
            second,
            third: Some(third),
        })
    }

    /// The first breach whose first two legs are given.
    fn third_leg(&self, first: u8, second: u8) -> Option<Breach>
        ensures { result
            ≡ asked third_leg B.tables self.now.search.now self.now.article first second }
    {
        if is_refused(&self.refused_second, second) {
            return None;
        }
        if self.search.book.legs(self.article) == 2 {
            return self.set_breach(Legs {
                first,
                second,
                third: None,
            });
        }
        (1..=self.search.positions()).find_map(|third| self.three_breach(first, second, third))
    }

    /// The first breach whose first leg is given.
    fn second_leg(&self, first: u8) -> Option<Breach>
        ensures { result ≡ asked second_leg B.tables self.now.search.now self.now.article first }
    {
        if is_refused(&self.refused_first, first) {
            return None;
        }
        (1..=self.search.positions()).find_map(|second| self.third_leg(first, second))
    }

    /// The first breach of a set of the article.
    fn first_leg(&self) -> Option<Breach>
        ensures { result ≡ asked first_leg B.tables self.now.search.now self.now.article }
    {
        (1..=self.search.positions()).find_map(|first| self.second_leg(first))
    }
}

/// The first breach of fairness; none exactly where the marks are fair.
/// A function over that of the search, so that its laws follow once, and not anew for each way out of it.
pub fn first_breach<B: Book>(book: &B, size: ContractSize, marked: &Marked) -> Option<Breach>
    requires { AreWithinLimits marked.now.held.now marked.now.marks.now }
    ensures value { result
        ≡ first_breach (B.tables book.now) size.units marked.now.held.now marked.now.marks.now }
    ensures fair { NoneExactlyIfFair (B.tables book.now) size.units
        marked.now.held.now marked.now.marks.now result }
    ensures first { (b : Breach) → result ≡ Some b
        → IsFirst (B.tables book.now) size.units marked.now.held.now marked.now.marks.now b }
{
    let search = Search {
        book,
        size,
        marked: *marked,
    };
    search.first_breach()
}
