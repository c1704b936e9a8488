//! Amounts, requirements and breaches as text.
ghost use Rattle.std.specs.Prelude.{Some};
ghost use Rattle.glossary.specs.Words.{parts_text, cents_text, required_text, breach_text};

use certificate_fairness::{Breach, Legs};
use page_money::Dollars;
use rules_amounts::Cents;
use rules_articles::ArticleFault;
use std::fmt;

/// Cents, in dollars.
#[derive(Clone, Copy)]
pub struct Price(pub Cents);

impl fmt::Display for Price {
    ghost output = { λ p. Some (cents_text p.0.amount) };

    fn fmt<W: fmt::Write>(&self, f: &mut fmt::Formatter<W>) -> fmt::Result {
        write!(f, "{}", Dollars::from(self.0.parts()))
    }
}

/// Parts, in dollars.
#[derive(Clone, Copy)]
pub struct Parts(pub u64);

impl fmt::Display for Parts {
    ghost output = { λ p. Some (parts_text p.0) };

    fn fmt<W: fmt::Write>(&self, f: &mut fmt::Formatter<W>) -> fmt::Result {
        write!(f, "{}", Dollars::from(self.0))
    }
}

/// What an article says of a set.
#[derive(Clone, Copy)]
pub struct Required(pub Result<u64, ArticleFault>);

/// The requirement in dollars.
impl fmt::Display for Required {
    ghost output = { λ r. Some (required_text r.0) };

    fn fmt<W: fmt::Write>(&self, f: &mut fmt::Formatter<W>) -> fmt::Result {
        match self.0 {
            Ok(parts) => write!(f, "{}", Dollars::from(parts)),
            Err(_) => f.write_str("refused"),
        }
    }
}

/// A breach, to be named.
#[derive(Clone, Copy)]
pub struct Named(pub Breach);

/// A position alone, or an article with its legs.
impl fmt::Display for Named {
    ghost output = { λ b. Some (breach_text b.0) };

    fn fmt<W: fmt::Write>(&self, f: &mut fmt::Formatter<W>) -> fmt::Result {
        match self.0 {
            Breach::Alone { position } => write!(f, "position {position}"),
            Breach::Set {
                article,
                legs: Legs {
                    first,
                    second,
                    third: None,
                },
            } => write!(f, "article {article} with positions {first} and {second}"),
            Breach::Set {
                article,
                legs: Legs {
                    first,
                    second,
                    third: Some(third),
                },
            } => write!(
                f,
                "article {article} with positions {first}, {second} and {third}"
            ),
        }
    }
}
