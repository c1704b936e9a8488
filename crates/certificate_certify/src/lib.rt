//! Certificates: a total, and a floor under every lawful pairing.
#![tactic(auto)]

ghost use Rattle.std.specs.Prelude.{◌≡◌, ◌*◌, ◌^◌, ◌≤◌, length, pos, if◌then◌else◌, None, nat_eq, Option, Some};
ghost use Rattle.rules_books.specs.Tables.{Has};
ghost use Rattle.certificate_pairing.specs.Sums.{sum_n};
ghost use Rattle.certificate_pairing.specs.Pairing.{limit, lot, takes, floor, FloorUnderCost};
ghost use Rattle.certificate_pairing.specs.Claims.{legs_of, set_of, taken, answer_in, requirement_in, AllowedIn, IsSound, ClaimsPair};
ghost use Rattle.certificate_fairness.specs.Search.{AreWithinLimits};
ghost use Rattle.certificate_certify.specs.Certified.{beyond, first_beyond, certify_reply, Certifies};
ghost use Rattle.certificate_certify.specs.Totals.{claim_requirement, set_amount, claims_amount, free, free_amount, computed_total};

use certificate_fairness::{Breach, first_breach};
use certificate_pairing::{Claim, Marked, answer, at, lot, mark_times};
use rules_amounts::ContractSize;
use rules_books::{Book, BookFault};
use rules_positions::{Kind, Record};

/// The whole requirement, and a floor under every lawful pairing, in parts.
#[derive(Clone, Copy, Debug, PartialEq, Eq)]
pub struct Certificate {
    pub total: u128,
    pub floor: i128,
}

/// Marks not one for each position; a mark beyond its limit (its position); marks that are not fair (the first breach).
#[derive(Clone, Copy, Debug, PartialEq, Eq)]
pub enum CertifyFault {
    NotOneEach { given: usize, held: usize },
    BeyondLimit(usize),
    Unfair(Breach),
}

/// So many units, sets or contracts, of so much each.
fn product(count: u64, each: u64) -> u128
    ensures { result ≡ count * each }
{
    u128::from(count) * u128::from(each)
}

/// What a docket holds, with its book: at most 32 positions and 64 claims, for contracts of a size. A certificate is of this.
/// It has no Model: its value may hold no function, and a book's tables are functions.
#[derive(Drop)]
pub struct Account<'a, B> {
    pub book: &'a B,
    pub size: ContractSize,
    pub held: &'a [Record],
    pub claims: &'a [Claim],
    ghost few_positions: { length held.now ≤ 32 },
    ghost few_claims: { length claims.now ≤ 64 },
}

impl<'a, B> Account<'a, B> {
    ghost use Rattle.certificate_certify.specs.Accounts.{docket_in};

    /// What a set takes of position `p` by its leg `q`.
    fn leg_takes(&self, q: u64, p: u64) -> u64
        ensures value { result
            ≡ (if nat_eq q p then lot self.now.size.units self.now.held.now q else 0) }
        ensures bound { result ≤ 65535 }
    {
        if q == p {
            return u64::from(lot(self.size, self.held, q));
        }
        0
    }

    /// What a set takes of position `p` by its legs.
    fn legs_take(&self, legs: &[u64], p: u64) -> u64
        requires { length legs.now ≤ 3 }
        ensures value { result ≡ takes self.now.size.units self.now.held.now legs.now p }
        ensures bound { result ≤ 196605 }
    {
        legs.iter().map(|q| self.leg_takes(*q, p)).sum()
    }

    /// What all sets of a claim take of position `p`.
    fn claim_takes(&self, l: &Claim, p: u64) -> u128
        ensures value { result
            ≡ l.now.sets * takes self.now.size.units self.now.held.now (legs_of l.now) p }
        ensures bound { result ≤ 2 ^ 82 }
    {
        let legs = [l.first, l.second, l.third];
        product(l.sets, self.legs_take(&legs[..usize::from(l.legs())], p))
    }

    /// What the claims take of position `p`.
    pub(crate) fn taken(&self, p: u64) -> u128
        ensures { result ≡ taken self.now.size.units self.now.held.now self.now.claims.now p }
    {
        self.claims.iter().map(|l| self.claim_takes(l, p)).sum()
    }

    /// What the claims leave of position `p`.
    pub fn free(&self, p: u64) -> u32
        ensures { result ≡ free (docket_in self.now) p }
    {
        let quantity = u128::from(at(self.held, p).quantity);
        // At most the quantity, a `u32`, so the cast loses nothing.
        quantity.saturating_sub(self.taken(p)) as u32
    }
}

impl<'a, B: Book> Account<'a, B> {
    ghost use Rattle.certificate_certify.specs.Accounts.{account_by};

    /// What the book says of a set of the claim. The book has the article, and the claim has as many legs.
    pub fn answer(&self, l: &Claim) -> Result<u64, BookFault>
        requires has { Has (B.tables self.now.book.now) l.now.article }
        requires whole { length (legs_of l.now) ≡ (B.tables self.now.book.now).legs l.now.article }
        ensures { result ≡ answer_in (account_by B.tables self.now) (set_of l.now) }
    {
        let Account { size, held, .. } = *self;
        let Claim {
            article,
            first,
            second,
            third,
            ..
        } = *l;
        let count = usize::from(l.legs());
        // The book has the article and numbers its articles by a `u8`, so the cast loses nothing.
        answer(
            self.book,
            size,
            held,
            article as u8,
            &[first, second, third][..count],
        )
    }

    /// What a set of the claim requires, in parts, to 10,000,000,000,000; none where the book does not know the claim, or refuses the set.
    /// Of an allowed set there is always a requirement.
    #[tactic(auto, using(crate::proofs::Promise::required_if))]
    pub fn claim_requirement(&self, l: &Claim) -> Option<u64>
        ensures value { result ≡ claim_requirement (account_by B.tables self.now) l.now }
        ensures allowed { AllowedIn (account_by B.tables self.now) (set_of l.now)
            → result ≡ Some (requirement_in (account_by B.tables self.now) (set_of l.now)) }
    {
        let known = (1..=u64::from(self.book.articles())).contains(&l.article);
        // A known article is at most the book's last, a `u8`, so the cast loses nothing.
        if known && l.legs() == self.book.legs(l.article as u8) {
            return self.answer(l).ok();
        }
        None
    }

    /// What a set of the claim requires; nothing where the book does not know it, or refuses it.
    fn set_amount(&self, l: &Claim) -> u64
        ensures { result ≡ set_amount (account_by B.tables self.now) l.now }
    {
        self.claim_requirement(l).unwrap_or(0)
    }

    /// What all sets of a claim require.
    fn claim_amount(&self, l: &Claim) -> u128
        ensures value { result ≡ l.now.sets * set_amount (account_by B.tables self.now) l.now }
        ensures bound { result ≤ 2 ^ 108 }
    {
        product(l.sets, self.set_amount(l))
    }

    /// What all claims require.
    fn claims_amount(&self) -> u128
        ensures value { result ≡ claims_amount (account_by B.tables self.now) self.now.claims.now }
        ensures bound { result ≤ 2 ^ 108 * 64 }
    {
        self.claims.iter().map(|l| self.claim_amount(l)).sum()
    }

    /// What is free of position `p`, alone.
    fn free_amount(&self, p: u64) -> u128
        ensures value { result ≡ free_amount (account_by B.tables self.now) p }
        ensures bound { result ≤ 2 ^ 96 }
    {
        let r = at(self.held, p);
        product(self.book.alone(self.size, &r), u64::from(self.free(p)))
    }

    /// What is free of each position, alone.
    fn free_total(&self) -> u128
        ensures value { result
            ≡ sum_n (length self.now.held.now) (free_amount (account_by B.tables self.now)) }
        ensures bound { result ≤ 2 ^ 96 * 32 }
    {
        // Rust has no `u64::from` of a `usize`; it is at most 32, so the cast loses nothing.
        (1..=self.held.len() as u64)
            .map(|p| self.free_amount(p))
            .sum()
    }

    /// The whole requirement.
    pub fn total(&self) -> u128
        ensures { result ≡ computed_total (account_by B.tables self.now) }
    {
        self.claims_amount() + self.free_total()
    }

    /// The total and the floor where the marks are fair, and what they show of the claims standing.
    /// Fair marks are worth no more than any lawful pairing costs, and sound claims are such a pairing, which costs their total.
    pub fn certify(&self, marks: &[i64]) -> Result<Certificate, CertifyFault>
        ensures reply { result ≡ certify_reply (account_by B.tables self.now) marks.now }
        ensures certified { IsSound (account_by B.tables self.now)
            → Certifies (account_by B.tables self.now) marks.now result }
        ensures floor { FloorUnderCost }
        ensures claims { ClaimsPair }
    {
        let Account { size, held, .. } = *self;
        if marks.len() != held.len() {
            return Err(CertifyFault::NotOneEach {
                given: marks.len(),
                held: held.len(),
            });
        }
        let marked = Marked { held, marks };
        if let Some(p) = out_of_limit(&marked) {
            return Err(CertifyFault::BeyondLimit(p));
        }
        if let Some(b) = first_breach(self.book, size, &marked) {
            return Err(CertifyFault::Unfair(b));
        }
        Ok(Certificate {
            total: self.total(),
            floor: floor(&marked),
        })
    }
}

/// The sum of mark × units entered.
pub(crate) fn floor(marked: &Marked) -> i128
    ensures { result ≡ floor marked.now.held.now marked.now.marks.now }
{
    // A loop, since the sum is signed and nothing says of a chain that such a sum fits.
    let mut total: i128 = 0;
    for (record, mark) in marked.held.iter().zip(marked.marks) {
        total += mark_times(*mark, record.quantity);
    }
    total
}

fn limit(kind: Kind) -> i64
    ensures { result ≡ pos (limit kind) }
{
    match kind {
        Kind::Units => 50_000_000_000,
        Kind::Call | Kind::Put | Kind::Futures | Kind::Receipt => 50_000_000_000_000,
    }
}

fn beyond(mark: i64, kind: Kind) -> bool
    ensures { result ≡ beyond mark (limit kind) }
{
    let n = limit(kind);
    !(-n..=n).contains(&mark)
}

/// The first position whose mark is beyond its limit; where there is none, all marks are within theirs.
fn out_of_limit(marked: &Marked) -> Option<usize>
    ensures value { result ≡ first_beyond marked.now.held.now marked.now.marks.now }
    ensures within { result ≡ None → AreWithinLimits marked.now.held.now marked.now.marks.now }
{
    marked
        .held
        .iter()
        .zip(marked.marks)
        .position(|(record, mark)| beyond(*mark, record.kind))
        .map(|place| place + 1)
}
