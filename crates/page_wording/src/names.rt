//! Names of what a docket has.
ghost use Rattle.std.specs.Prelude.{◌≡◌};
ghost use Rattle.page_wording.specs.Names.{side_name, kind_name, article_name, article_of, ordinal};

use rules_articles::Article;
use rules_books::Sheet;
use rules_positions::{Kind, Side};

/// A side in a word.
pub fn side_name(side: Side) -> &'static str
    ensures { result.now ≡ side_name side }
{
    match side {
        Side::Long => "long",
        Side::Short => "short",
    }
}

/// A kind in a word.
pub fn kind_name(kind: Kind) -> &'static str
    ensures { result.now ≡ kind_name kind }
{
    match kind {
        Kind::Units => "units",
        Kind::Call => "call",
        Kind::Put => "put",
        Kind::Futures => "futures",
        Kind::Receipt => "receipt",
    }
}

/// An article in words, as docs/RULES.md names it.
pub fn article_name(article: Article) -> &'static str
    ensures { result.now ≡ article_name article }
{
    match article {
        Article::CallSpread => "call spread",
        Article::PutSpread => "put spread",
        Article::Straddle => "straddle",
        Article::ProtectivePut => "protective put",
        Article::Conversion => "conversion",
        Article::Reconversion => "reconversion",
        Article::ReceiptCall => "call on an escrow receipt",
    }
}

/// The article of a number, if the book has one.
pub fn article_of(sheet: &Sheet, number: u64) -> Option<Article>
    ensures { result ≡ article_of sheet.now number }
{
    match (sheet, number) {
        (_, 1) => Some(Article::CallSpread),
        (_, 2) => Some(Article::PutSpread),
        (_, 3) => Some(Article::Straddle),
        (_, 4) => Some(Article::ProtectivePut),
        (Sheet::Share(_), 5) => Some(Article::Conversion),
        (Sheet::Share(_), 6) => Some(Article::Reconversion),
        (Sheet::Currency(_), 5) => Some(Article::ReceiptCall),
        _ => None,
    }
}

/// A number of a field or a leg, in a word.
pub fn ordinal(number: usize) -> &'static str
    ensures { result.now ≡ ordinal number }
{
    match number {
        1 => "first",
        2 => "second",
        3 => "third",
        4 => "fourth",
        5 => "fifth",
        6 => "sixth",
        _ => "last",
    }
}
