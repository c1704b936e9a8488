//! The sample docket, made by its calls, and what it answers.
ghost use Rattle.std.specs.Prelude.{◌≡◌, IfOk, Some, Ok, Err};
ghost use Rattle.rules_market.specs.Share.{shares_on};
ghost use Rattle.certificate_pairing.specs.Pairing.{IsPosition, mark, IsLawfulPairing, cost, floor};
ghost use Rattle.certificate_pairing.specs.Claims.{total, pairing_of, CertificateShows, LawfulIn, cost_in};
ghost use Rattle.certificate_fairness.specs.Search.{first_breach};
ghost use Rattle.certificate_certify.specs.Totals.{free};
ghost use Rattle.calls_docket.specs.Calls.{certificate_reply};
ghost use Rattle.calls_serve.specs.Laws.{Holds};
ghost use Rattle.answer_docket.specs.Answers.{verdict_of};
ghost use Rattle.rules_priced_examples.specs.Examples.{sample, sample_size};
ghost use Rattle.glossary.specs.Sample.{tables, tally, marks, other_marks, sample_docket};

use answer_docket::{Summary, Verdict};
use calls_docket::{Docket, Refusal};
use calls_serve::{Call, Granted, run};
use certificate_certify::Certificate;
use certificate_fairness::Breach;
use certificate_pairing::Claim;
use rules_market::ShareSheet;
use rules_positions::Entry;
use rules_priced_examples::sample_sheet;

/// The marks of the sample docket, and the same with 0 for the put.
const MARKS: [i64; 3] = [25_000_000, -2_150_000_000, 2_120_000_000];

const OTHER_MARKS: [i64; 3] = [25_000_000, 0, 2_120_000_000];

/// A call of enter.
fn enter<'a>(side: char, kind: char, strike: u64, days: u64, price: u64, quantity: u64) -> Call<'a>
    ensures { result
        ≡ Call.Enter
        (record {
          side = side;
          kind = kind;
          strike = strike;
          days = days;
          price = price;
          quantity =
              quantity;
        }) }
{
    Call::Enter(Entry {
        side,
        kind,
        strike,
        days,
        price,
        quantity,
    })
}

/// 300 units long, two long puts of strike 48.00 at 1.50 and a short call of strike 55.00 at 1.20; two sets of article 4 claimed.
fn sample_docket() -> Docket<ShareSheet>
    ensures book { shares_on result.book ≡ sample }
    ensures size { result.size ≡ sample_size }
    ensures tally { result.tally ≡ tally }
    ensures holds { Holds sample_docket }
{
    let calls = [
        enter('L', 'U', 0, 0, 0, 300),
        enter('L', 'P', 4_800, 100, 150, 2),
        enter('S', 'C', 5_500, 100, 120, 1),
        Call::Claim(Claim {
            article: 4,
            first: 2,
            second: 1,
            third: 0,
            sets: 2,
        }),
    ];
    let mut places = [Ok(Granted::Total(0)); 4];
    match run(sample_sheet(), 100, &calls, &mut places) {
        Ok(docket) => docket,
        // The size is in range.
        Err(_) => unreachable!(),
    }
}

/// Free units: of a position of the sample docket.
pub(crate) fn free_units(position: u64) -> u32
    requires { IsPosition tally.held position }
    ensures { result ≡ free sample_docket position }
{
    match sample_docket().free(position) {
        Ok(units) => units,
        // The position is held.
        Err(_) => unreachable!(),
    }
}

/// Total: of the sample docket. Its claims are a lawful pairing, which costs that.
pub(crate) fn total() -> u128
    ensures value { result ≡ total sample_docket }
    ensures lawful { LawfulIn sample_docket (pairing_of tally.claims) }
    ensures cost { result ≡ cost_in sample_docket (pairing_of tally.claims) }
{
    sample_docket().total()
}

/// Mark: that of a position of the sample docket.
pub(crate) fn mark(position: u64) -> i64
    ensures { result ≡ mark marks position }
{
    certificate_pairing::mark(&MARKS, position)
}

/// What certify says of marks on the sample docket, and what a certificate then shows.
fn certify(marks: &[i64]) -> Result<Certificate, Refusal>
    ensures value { result ≡ certificate_reply sample_docket marks.now }
    ensures shown { IfOk result (λ c. CertificateShows sample_docket marks.now c.total c.floor) }
{
    sample_docket().certify(marks)
}

/// Fair, and floor: the certificate of the sample docket's marks. They are fair, and the floor is theirs.
pub(crate) fn certificate() -> Certificate
    ensures value { Ok result ≡ certificate_reply sample_docket marks }
    ensures shown { CertificateShows sample_docket marks result.total result.floor }
{
    match certify(&MARKS) {
        Ok(certificate) => certificate,
        // The marks are fair.
        Err(_) => unreachable!(),
    }
}

/// Fair: the breach of the same marks with 0 for the put.
pub(crate) fn breach() -> Breach
    ensures refused { certificate_reply sample_docket other_marks ≡ Err (Refusal.Unfair result) }
    ensures first { first_breach tables sample_size tally.held other_marks ≡ Some result }
{
    match certify(&OTHER_MARKS) {
        Err(Refusal::Unfair(breach)) => breach,
        // The marks are refused as unfair.
        _ => unreachable!(),
    }
}

/// Least: what the floor of the sample docket's marks says of its total.
pub(crate) fn verdict() -> Verdict
    ensures { result ≡ verdict_of (total sample_docket) (Some (floor tally.held marks)) }
{
    let docket = sample_docket();
    let summary = Summary {
        positions: docket.positions().len(),
        claims: docket.claims().len(),
        total: docket.total(),
        floor: Some(certificate().floor),
    };
    summary.verdict()
}
