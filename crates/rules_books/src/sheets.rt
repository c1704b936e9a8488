//! The share book and the currency book, and one enum of their two sheets that is a book too.
ghost use Rattle.std.specs.Prelude.{◌≡◌, ℕ, ◌+◌, ◌<◌, ◌≤◌, false, length, slice_index_or};
ghost use Rattle.std.proofs.Common.{arith};
ghost use Rattle.rules_positions.specs.Records.{terms};
ghost use Rattle.rules_articles.specs.declared.Article.{Article};
ghost use Rattle.rules_articles.specs.ByArticle.{matches_leg};
ghost use Rattle.rules_books.specs.Tables.{Has, IsRefusedAt};
ghost use Rattle.rules_books.specs.Books.{share_article, currency_article, tables_over, sheet_article, sheet_tables, raised};
ghost use Rattle.rules_books.specs.Lawful.{lawful_over, sheet_lawful};

use crate::{Book, BookFault};
use rules_amounts::ContractSize;
use rules_articles::{Article, ArticleFault, Leg, set_requirement};
use rules_market::{CurrencySheet, Market, ShareSheet};
use rules_positions::Record;
use rules_pricing::Contract;

/// The cause and the leg pass unaltered.
impl From<ArticleFault> for BookFault {
    ghost from_gives = { λ x y. y ≡ raised x };

    fn from(value: ArticleFault) -> BookFault
        ensures { result ≡ raised value }
    {
        BookFault {
            cause: value.cause(),
            leg: value.leg(),
        }
    }
}

/// A market whose book is a list of articles, numbered from 1.
pub trait Listed: Market {
    /// How many articles the book has.
    ghost count: { ℕ };

    /// The article of each number.
    ghost numbered: { ℕ → Article };

    /// The articles in the order of their numbers: at index 0 the first.
    fn listed(&self) -> &'static [Article]
        ensures count { length result.now ≡ count }
        ensures order { (k : ℕ) → k < count → slice_index_or result.now k (numbered (k + 1))
            ≡ numbered (k + 1) };

    ghost few: { (1 ≤ count) × (count ≤ 16) };
}

/// The article of a number that the book has.
fn article_of<M: Listed>(market: &M, number: u8) -> Article
    requires { (1 ≤ number) × (number ≤ M.count) }
    ensures { result ≡ M.numbered number }
{
    market.listed()[usize::from(number) - 1]
}

impl<M: Listed> Book for M {
    ghost tables = { λ m. tables_over M.count M.numbered (M.quote m) };

    ghost lawful = { λ m. lawful_over M.count M.numbered (M.quote m) M.few.0 M.few.1 (M.limits m) };

    fn articles(&self) -> u8 {
        // At most 16, so the cast loses nothing.
        self.listed().len() as u8
    }

    fn legs(&self, article: u8) -> u8 {
        article_of(self, article).legs()
    }

    fn alone(&self, size: ContractSize, position: &Record) -> u64 {
        Contract { market: self, size }.alone(position)
    }

    fn paired(&self, size: ContractSize, article: u8, legs: &[Record]) -> Result<u64, BookFault> {
        Ok(set_requirement(
            &Contract { market: self, size },
            article_of(self, article),
            legs,
        )?)
    }

    fn may_be_leg(&self, article: u8, leg: Leg, position: &Record) -> bool
        requires { Has (tables_over M.count M.numbered (M.quote self.now)) article }
        ensures law { result ≡ false →
            IsRefusedAt (tables_over M.count M.numbered (M.quote self.now))
            article leg position.now }
        ensures exact { result ≡ matches_leg (M.numbered article) leg (terms position.now) }
    {
        article_of(self, article).matches_leg(leg, position)
    }
}

impl Listed for ShareSheet {
    ghost count = { 6 };

    ghost numbered = { share_article };

    ghost few = { Prim.omega arith };

    fn listed(&self) -> &'static [Article] {
        &[
            Article::CallSpread,
            Article::PutSpread,
            Article::Straddle,
            Article::ProtectivePut,
            Article::Conversion,
            Article::Reconversion,
        ]
    }
}

impl Listed for CurrencySheet {
    ghost count = { 5 };

    ghost numbered = { currency_article };

    ghost few = { Prim.omega arith };

    fn listed(&self) -> &'static [Article] {
        &[
            Article::CallSpread,
            Article::PutSpread,
            Article::Straddle,
            Article::ProtectivePut,
            Article::ReceiptCall,
        ]
    }
}

/// Either sheet: the product fixes one enum of the two as a book, since a docket keeps one type of book. Each answer is its sheet's.
#[derive(Clone, Copy, Debug, PartialEq, Eq)]
pub enum Sheet {
    Share(ShareSheet),
    Currency(CurrencySheet),
}

impl Book for Sheet {
    ghost tables = { sheet_tables };

    ghost lawful = { sheet_lawful };

    fn articles(&self) -> u8 {
        match self {
            Sheet::Share(sheet) => sheet.articles(),
            Sheet::Currency(sheet) => sheet.articles(),
        }
    }

    fn legs(&self, article: u8) -> u8 {
        match self {
            Sheet::Share(sheet) => sheet.legs(article),
            Sheet::Currency(sheet) => sheet.legs(article),
        }
    }

    fn alone(&self, size: ContractSize, position: &Record) -> u64 {
        match self {
            Sheet::Share(sheet) => sheet.alone(size, position),
            Sheet::Currency(sheet) => sheet.alone(size, position),
        }
    }

    fn paired(&self, size: ContractSize, article: u8, legs: &[Record]) -> Result<u64, BookFault> {
        match self {
            Sheet::Share(sheet) => sheet.paired(size, article, legs),
            Sheet::Currency(sheet) => sheet.paired(size, article, legs),
        }
    }

    fn may_be_leg(&self, article: u8, leg: Leg, position: &Record) -> bool
        requires { Has (sheet_tables self.now) article }
        ensures law { result
            ≡ false → IsRefusedAt (sheet_tables self.now) article leg position.now }
        ensures exact { result ≡
            matches_leg (sheet_article self.now article) leg (terms position.now) }
    {
        match self {
            Sheet::Share(sheet) => sheet.may_be_leg(article, leg, position),
            Sheet::Currency(sheet) => sheet.may_be_leg(article, leg, position),
        }
    }
}
