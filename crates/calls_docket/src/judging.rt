//! The conditions on a claim and on a release, in the order of their refusals.
ghost use Rattle.std.specs.Prelude.{◌≡◌, ◌≤◌, length, OnOk};
ghost use Rattle.rules_amounts.specs.Ranges.{inside};
ghost use Rattle.rules_books.specs.Tables.{Has};
ghost use Rattle.certificate_pairing.specs.Pairing.{answer};
ghost use Rattle.certificate_pairing.specs.Claims.{legs_of, set_of};
ghost use Rattle.certificate_certify.specs.Accounts.{docket_in};
ghost use Rattle.calls_docket.specs.Calls.{unless, good, sets_ok, article_ok, position_ok, third_ok, positions_ok, apart_ok, book_ok, leg_covered, covered_ok, sets_added, sets_left};

use crate::Refusal;
use certificate_certify::Account;
use certificate_pairing::{Claim, lot};
use rules_articles::Leg;

/// Refuses a number that is not from 1 to the most there are.
fn up_to(most: u64, n: u64, refusal: Refusal) -> Result<(), Refusal>
    ensures { result ≡ unless (inside 1 most n) refusal good }
{
    (1..=most).contains(&n).then_some(()).ok_or(refusal)
}

/// Refuses a number of sets outside 1 to 5,000.
pub(crate) fn sets_ok(c: &Claim) -> Result<(), Refusal>
    ensures { result ≡ sets_ok c.now }
{
    up_to(5_000, c.sets, Refusal::SetsOutOfRange)
}

/// Refuses an article that the book has not, and then a number of sets.
pub(crate) fn article_ok(articles: u8, c: &Claim) -> Result<(), Refusal>
    ensures { result ≡ article_ok articles c.now }
{
    up_to(u64::from(articles), c.article, Refusal::NoSuchArticle)?;
    sets_ok(c)
}

/// Refuses a number that no position has.
pub(crate) fn position_ok(count: usize, leg: Leg, p: u64) -> Result<(), Refusal>
    ensures { result ≡ position_ok count leg p }
{
    // A cast: a u64 is not made from a usize by From.
    up_to(count as u64, p, Refusal::NoSuchPosition(leg))
}

/// Refuses a third leg beside two; of three, one that is no position.
fn third_leg_ok(count: usize, legs: u8, third: u64) -> Result<(), Refusal>
    ensures { result ≡ unless (third_ok count legs third) (Refusal.NoSuchPosition Leg.Third) good }
{
    if legs != 2 {
        return position_ok(count, Leg::Third, third);
    }
    if third != 0 {
        return Err(Refusal::NoSuchPosition(Leg::Third));
    }
    Ok(())
}

/// Refuses the first leg that is no position, and a third leg beside two.
pub(crate) fn positions_ok(count: usize, legs: u8, c: &Claim) -> Result<(), Refusal>
    ensures value { result ≡ positions_ok count legs c.now }
    ensures whole { OnOk result (2 ≤ legs → legs ≤ 3 → length (legs_of c.now) ≡ legs) }
{
    position_ok(count, Leg::First, c.first)?;
    position_ok(count, Leg::Second, c.second)?;
    third_leg_ok(count, legs, c.third)
}

/// Refuses a position that is a leg twice.
pub(crate) fn apart_ok(c: &Claim) -> Result<(), Refusal>
    ensures { result ≡ apart_ok c.now }
{
    if c.second == c.first {
        return Err(Refusal::PositionTwice(Leg::Second));
    }
    if c.third == c.first || c.third == c.second {
        return Err(Refusal::PositionTwice(Leg::Third));
    }
    Ok(())
}

/// Refuses a leg of which too little is free.
fn leg_covered<B>(account: &Account<B>, c: &Claim, leg: Leg, p: u64) -> Result<(), Refusal>
    ensures { result ≡ leg_covered (docket_in account.now) c.now leg p }
{
    let each = lot(account.size, account.held, p);
    if u128::from(c.sets) * u128::from(each) <= u128::from(account.free(p)) {
        return Ok(());
    }
    Err(Refusal::UnitsShort(leg))
}

/// Refuses the first leg of which too little is free.
pub(crate) fn covered_ok<B>(account: &Account<B>, c: &Claim) -> Result<(), Refusal>
    ensures { result ≡ covered_ok (docket_in account.now) c.now }
{
    leg_covered(account, c, Leg::First, c.first)?;
    leg_covered(account, c, Leg::Second, c.second)?;
    if c.third == 0 {
        return Ok(());
    }
    leg_covered(account, c, Leg::Third, c.third)
}

/// The sets then in a claim that stands.
pub(crate) fn sets_added(standing: &Claim, c: &Claim) -> Result<u64, Refusal>
    ensures { result ≡ sets_added standing.now c.now }
{
    let sets = standing.sets.checked_add(c.sets);
    sets.filter(|n| *n <= 5_000).ok_or(Refusal::ClaimTooLarge)
}

/// The sets left in a claim that stands.
pub(crate) fn sets_left(standing: &Claim, c: &Claim) -> Result<u64, Refusal>
    ensures { result ≡ sets_left standing.now c.now }
{
    standing
        .sets
        .checked_sub(c.sets)
        .ok_or(Refusal::MoreThanClaimed)
}
