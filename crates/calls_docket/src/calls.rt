//! The calls on a docket. Each takes its input as it is sent, with nothing checked beforehand; a refusal leaves the docket as it was.
ghost use Rattle.std.specs.Prelude.{◌≡◌, true, false, Ok, Err};
ghost use Rattle.rules_amounts.specs.Ranges.{inside};
ghost use Rattle.certificate_pairing.specs.Dockets.{empty, docket_of, docket_by};
ghost use Rattle.calls_docket.specs.Calls.{enter_reply, after_enter, claim_judged, claim_reply, after_claim, release_reply, after_release, free_reply, total_reply, certificate_reply};

use crate::Refusal;
use crate::docket::Docket;
use crate::finding::{find_claim, find_position};
use crate::judging::{
    apart_ok, article_ok, covered_ok, position_ok, positions_ok, sets_added, sets_left, sets_ok,
};
use arrayvec::ArrayVec;
use certificate_certify::Certificate;
use certificate_pairing::Claim;
use rules_amounts::ContractSize;
use rules_articles::Leg;
use rules_books::Book;
use rules_positions::{Entry, Record};

impl<B: Book + Drop> Docket<B> {
    /// A docket over a book, for contracts of a size that is in range, with no position and no claim.
    pub fn new(book: B, size: ContractSize) -> Docket<B>
        ensures book { result.book ≡ book }
        ensures size { result.size ≡ size.units }
        ensures tally { result.tally ≡ empty }
    {
        Docket {
            book,
            size,
            held: ArrayVec::new(),
            claims: ArrayVec::new(),
        }
    }

    /// The same, for contracts of `size` units.
    pub fn open(book: B, size: u64) -> Result<Docket<B>, Refusal>
        ensures { elim result [
          | Ok d ↦ (inside 1 1000 size ≡ true) × (d ≡ docket_of book size empty)
          | Err e ↦ (inside 1 1000 size ≡ false) × (e ≡ Refusal.SizeOutOfRange)
        ] }
    {
        let size = ContractSize::new(size).ok_or(Refusal::SizeOutOfRange)?;
        Ok(Docket::new(book, size))
    }

    /// Enters a position and answers its number.
    pub fn enter(&mut self, entry: &Entry) -> Result<usize, Refusal>
        ensures reply { result ≡ enter_reply self.old.size self.old.tally entry.now }
        ensures after { self.new
            ≡ record self.old { tally = after_enter self.old.size self.old.tally entry.now } }
    {
        let record = Record::new(self.size, entry)?;
        if let Some(i) = find_position(self.positions(), &record) {
            return Err(Refusal::AlreadyHeld(i + 1));
        }
        let held = &mut self.held;
        held.try_push(record).map_err(|_| Refusal::PositionsFull)?;
        Ok(held.len())
    }

    /// All that can refuse a claim before one like it is looked for.
    fn judge(&self, c: &Claim) -> Result<(), Refusal>
        ensures { result ≡ claim_judged (docket_by B.tables self.now) c.now }
    {
        article_ok(self.book.articles(), c)?;
        // A cast: article_ok has refused a number beyond the book's articles.
        let legs = self.book.legs(c.article as u8);
        positions_ok(self.positions().len(), legs, c)?;
        apart_ok(c)?;
        let account = self.account();
        // The book has the article, and all its legs are there: that is what was judged so far.
        account.answer(c)?;
        covered_ok(&account, c)
    }

    /// Claims sets under an article and answers those then standing of it.
    pub fn claim(&mut self, c: &Claim) -> Result<u64, Refusal>
        ensures reply { result ≡ claim_reply (docket_by B.tables self.old) c.now }
        ensures after { self.new
            ≡ record self.old { tally = after_claim (docket_by B.tables self.old) c.now } }
    {
        self.judge(c)?;
        let Some(i) = find_claim(self.claims(), c) else {
            self.claims.try_push(*c).map_err(|_| Refusal::ClaimsFull)?;
            return Ok(c.sets);
        };
        let sets = sets_added(&self.claims()[i], c)?;
        self.claims[i].sets = sets;
        Ok(sets)
    }

    /// Takes sets back from a claim and answers those left; at 0 the claim goes.
    pub fn release(&mut self, c: &Claim) -> Result<u64, Refusal>
        ensures reply { result ≡ release_reply self.old.tally c.now }
        ensures after { self.new ≡ record self.old { tally = after_release self.old.tally c.now } }
    {
        sets_ok(c)?;
        let i = find_claim(self.claims(), c).ok_or(Refusal::NoSuchClaim)?;
        let sets = sets_left(&self.claims()[i], c)?;
        if sets == 0 {
            self.claims.remove(i);
        } else {
            self.claims[i].sets = sets;
        }
        Ok(sets)
    }

    /// The units of a position outside claims.
    pub fn free(&self, position: u64) -> Result<u32, Refusal>
        ensures { result ≡ free_reply self.now position }
    {
        position_ok(self.positions().len(), Leg::First, position)?;
        Ok(self.account().free(position))
    }

    /// The whole requirement.
    pub fn total(&self) -> u128
        ensures { result ≡ total_reply (docket_by B.tables self.now) }
    {
        self.account().total()
    }

    /// The total and the floor where the marks are fair.
    pub fn certify(&self, marks: &[i64]) -> Result<Certificate, Refusal>
        ensures { result ≡ certificate_reply (docket_by B.tables self.now) marks.now }
    {
        Ok(self.account().certify(marks)?)
    }
}
