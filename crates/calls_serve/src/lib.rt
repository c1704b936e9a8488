//! Runs of calls on a docket, and what holds after each call.
#![tactic(auto)]

ghost use Rattle.std.specs.Prelude.{◌≡◌, true, false, ◌++◌, take, drop, Ok, Err};
ghost use Rattle.rules_books.specs.Ranges.{inside};
ghost use Rattle.certificate_pairing.specs.Kept.{CallsKeepSound};
ghost use Rattle.certificate_pairing.specs.Dockets.{docket_of, docket_by};
ghost use Rattle.calls_serve.specs.Runs.{reply_to, after, ran, replies};
ghost use Rattle.calls_serve.specs.Laws.{Onward, served, opened, IsRun};

mod texts;

use calls_docket::{Docket, Refusal};
use certificate_certify::Certificate;
use certificate_pairing::Claim as ClaimOf;
use rules_books::Book;
use rules_positions::Entry;

/// One of the six calls, with its input as it is sent.
#[derive(Clone, Copy, Debug, PartialEq, Eq)]
pub enum Call<'a> {
    Enter(Entry),
    Claim(ClaimOf),
    Release(ClaimOf),
    Free(u64),
    Total,
    Certify(&'a [i64]),
}

/// What a call is granted.
#[derive(Clone, Copy, Debug, PartialEq, Eq)]
pub enum Granted {
    Entered(usize),
    Claimed(u64),
    Released(u64),
    Free(u32),
    Total(u128),
    Certified(Certificate),
}

/// The reply to a call: what is granted, or the refusal.
pub type Reply = Result<Granted, Refusal>;

/// One call, by a match on it with the data of its case. It stands apart from `serve`, whose law then follows once, and not anew for each of eleven replies.
fn dispatch<B: Book + Drop>(docket: &mut Docket<B>, call: &Call) -> Reply
    ensures reply { result ≡ reply_to (docket_by B.tables docket.old) call.now }
    ensures after { docket.new
        ≡ record docket.old { tally = after (docket_by B.tables docket.old) call.now } }
{
    Ok(match call {
        Call::Enter(entry) => Granted::Entered(docket.enter(entry)?),
        Call::Claim(claim) => Granted::Claimed(docket.claim(claim)?),
        Call::Release(claim) => Granted::Released(docket.release(claim)?),
        Call::Free(position) => Granted::Free(docket.free(*position)?),
        Call::Total => Granted::Total(docket.total()),
        Call::Certify(marks) => Granted::Certified(docket.certify(marks)?),
    })
}

/// One call, whichever it is. A granted call keeps sound claims sound; and where calls led here from a docket just opened, all that should hold does after it.
pub fn serve<B: Book + Drop>(docket: &mut Docket<B>, call: &Call) -> Reply
    ensures reply { result ≡ reply_to (docket_by B.tables docket.old) call.now }
    ensures after { docket.new
        ≡ record docket.old { tally = after (docket_by B.tables docket.old) call.now } }
    ensures kept { CallsKeepSound }
    ensures onward { Onward (docket_by B.tables docket.old) docket.new.tally }
{
    dispatch(docket, call)
}

/// The calls in order, each reply into the place of the same number, as far as there are places.
fn serve_all<B: Book + Drop>(docket: &mut Docket<B>, calls: &[Call], places: &mut [Reply])
    ensures replies { let n = served calls.now places.old in places.new
        ≡ replies (docket_by B.tables docket.old) (take n calls.now) ++ drop n places.old }
    ensures after { let n = served calls.now places.old in docket.new ≡ record docket.old {
      tally = ran (docket_by B.tables docket.old) (take n calls.now);
    } }
{
    // No `zip`: after a `zip` over `iter_mut` a proof knows nothing of what the places hold.
    let mut calls = calls.iter();
    for place in places.iter_mut() {
        let Some(call) = calls.next() else {
            return;
        };
        *place = dispatch(docket, call);
    }
}

/// Opens a docket over a book and serves a list of calls, each reply into the place of the same number.
/// The places are the caller's: the product takes the replies in this form.
pub fn run<B: Book + Drop>(
    book: B,
    size: u64,
    calls: &[Call],
    places: &mut [Reply],
) -> Result<Docket<B>, Refusal>
    ensures { elim result [
      | Ok d ↦ (inside 1 1000 size ≡ true) × (d ≡ docket_of book size d.tally)
          × IsRun (opened (B.tables book) size) calls.now places.old places.new d.tally
      | Err e ↦ (inside 1 1000 size ≡ false) × (e ≡ Refusal.SizeOutOfRange)
          × (places.new ≡ places.old)
    ] }
{
    let mut docket = Docket::open(book, size)?;
    serve_all(&mut docket, calls, places);
    Ok(docket)
}
