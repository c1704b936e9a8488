//! The figures of positions and of claims that stand.
ghost use Rattle.std.specs.Prelude.{◌≡◌, ◌*◌, ◌^◌, ◌≤◌, true, Some, IsSome};
ghost use Rattle.rules_amounts.specs.Ranges.{inside};
ghost use Rattle.rules_books.specs.Books.{sheet_tables};
ghost use Rattle.certificate_pairing.specs.Claims.{legs_of, set_of, AllowedIn};
ghost use Rattle.page_figures.specs.Shown.{free_figures, leg_alone, legs_alone, claim_figures};
ghost use Rattle.certificate_pairing.specs.Dockets.{docket_by};

use crate::{ClaimFigures, FreeFigures};
use calls_docket::Docket;
use certificate_pairing::{Claim, at, lot};
use rules_books::{Book, Sheet};

/// Of a position, by its number. Of a number that no position has, nothing is free.
pub fn free_figures(docket: &Docket<Sheet>, number: u64) -> FreeFigures
    ensures { result ≡ free_figures (docket_by sheet_tables docket.now) number }
{
    let record = at(docket.positions(), number);
    let alone = docket.book().alone(docket.size(), &record);
    let free = docket.free(number).unwrap_or(0);
    let amount = u128::from(alone) * u128::from(free);
    FreeFigures {
        alone,
        free,
        amount,
    }
}

/// What a set takes of a leg, alone.
fn leg_alone(docket: &Docket<Sheet>, position: u64) -> u128
    ensures value { result ≡ leg_alone (docket_by sheet_tables docket.now) position }
    ensures bound { result ≤ 2 ^ 80 }
{
    let record = at(docket.positions(), position);
    let each = lot(docket.size(), docket.positions(), position);
    u128::from(each) * u128::from(docket.book().alone(docket.size(), &record))
}

/// What a set takes, alone.
fn set_alone(docket: &Docket<Sheet>, claim: &Claim) -> u128
    ensures value { result ≡ legs_alone (docket_by sheet_tables docket.now) (legs_of claim.now) }
    ensures bound { result ≤ 3 * 2 ^ 80 }
{
    let two = leg_alone(docket, claim.first) + leg_alone(docket, claim.second);
    if claim.third == 0 {
        return two;
    }
    two + leg_alone(docket, claim.third)
}

/// An amount for each of so many sets.
fn for_sets(sets: u64, each: u128) -> u128
    requires sets { sets ≤ 5000 }
    requires each { each ≤ 3 * 2 ^ 80 }
    ensures value { result ≡ sets * each }
    ensures bound { result ≤ 2 ^ 95 }
{
    u128::from(sets) * each
}

/// Of a claim. None where its sets are not 1 to 5,000, or the book does not know it or refuses the set: never so of a claim that stands.
#[tactic(auto, using(crate::proofs::Allowing::allowed_figures))]
pub fn claim_figures(docket: &Docket<Sheet>, claim: &Claim) -> Option<ClaimFigures>
    ensures value { result ≡ claim_figures (docket_by sheet_tables docket.now) claim.now }
    ensures allowed { AllowedIn (docket_by sheet_tables docket.now) (set_of claim.now)
        → inside 1 5000 claim.now.sets ≡ true → IsSome result }
{
    if !(1..=5_000).contains(&claim.sets) {
        return None;
    }
    let set = docket.account().claim_requirement(claim)?;
    let all_sets = for_sets(claim.sets, u128::from(set));
    let alone = for_sets(claim.sets, set_alone(docket, claim));
    Some(ClaimFigures {
        set,
        all_sets,
        alone,
        // Both are below 2^95, so the casts lose nothing.
        saved: alone as i128 - all_sets as i128,
    })
}
