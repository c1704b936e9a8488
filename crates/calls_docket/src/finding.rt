//! Finding a position or a claim that is like another.
ghost use Rattle.std.specs.Prelude.{◌≡◌, ◌<◌, length, IfSome};
ghost use Rattle.calls_docket.specs.Finding.{like_position, like_claim, position_like, claim_like};

use certificate_pairing::Claim;
use rules_positions::Record;

/// Alike whatever the price and the quantity.
fn like_position(r: &Record, x: &Record) -> bool
    ensures { result ≡ like_position r.now x.now }
{
    (x.side, x.kind, x.strike, x.days) == (r.side, r.kind, r.strike, r.days)
}

/// Alike whatever the sets.
fn like_claim(c: &Claim, x: &Claim) -> bool
    ensures { result ≡ like_claim c.now x.now }
{
    (x.article, x.first, x.second, x.third) == (c.article, c.first, c.second, c.third)
}

// A function for each list: what makes two positions alike and what makes two claims alike are different fields.

/// The place of the position like `r`, from 0.
pub(crate) fn find_position(held: &[Record], r: &Record) -> Option<usize>
    ensures value { result ≡ position_like held.now r.now }
    ensures bound { IfSome result (λ i. i < length held.now) }
{
    held.iter().position(|x| like_position(r, x))
}

/// The place of the claim like `c`, from 0.
pub(crate) fn find_claim(claims: &[Claim], c: &Claim) -> Option<usize>
    ensures value { result ≡ claim_like claims.now c.now }
    ensures bound { IfSome result (λ i. i < length claims.now) }
{
    claims.iter().position(|x| like_claim(c, x))
}
