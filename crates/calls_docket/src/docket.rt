//! A docket, and what it shows of itself.
ghost use Rattle.std.specs.Prelude.{◌≡◌, ◌≤◌, length};
ghost use Rattle.certificate_certify.specs.Accounts.{docket_in};

use arrayvec::ArrayVec;
use certificate_certify::Account;
use certificate_pairing::Claim;
use rules_amounts::ContractSize;
use rules_positions::Record;
use std::marker::Model;

/// One client's account in one underlying interest: it keeps one book throughout.
/// It holds the contract size, at most 32 positions in order of entry, and at most 64 claims standing.
#[derive(Drop)]
pub struct Docket<B> {
    pub(crate) book: B,
    pub(crate) size: ContractSize,
    pub(crate) held: ArrayVec<Record, 32>,
    pub(crate) claims: ArrayVec<Claim, 64>,
}

impl<B> Model for Docket<B> {
    ghost use Rattle.certificate_pairing.specs.Dockets.{Docket as Seen};

    ghost Value = { Seen B };

    ghost view = { λ d. record {
      book = d.book;
      size = d.size.units;
      tally = record { held = d.held.items; claims = d.claims.items };
    } };
}

impl<B> Docket<B> {
    /// All that it holds, to be priced and certified: the positions and the claims, with the book and the contract size.
    pub fn account(&self) -> Account<'_, B>
        ensures { docket_in result ≡ self.now }
    {
        Account {
            book: &self.book,
            size: self.size,
            held: self.positions(),
            claims: self.claims(),
        }
    }
}
