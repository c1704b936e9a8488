//! A docket made again from what it holds: its positions entered in their order, and then its claims made in theirs.
#![tactic(auto)]

ghost use Rattle.std.specs.Prelude.{◌≡◌};
ghost use Rattle.calls_replay.specs.Entries.{entry_of};
ghost use Rattle.calls_replay.specs.Replay.{Replay};

use rules_positions::{Entry, Record};

/// The entry that makes a position again: the letters of its side and kind, and its four numbers.
/// What a docket holds after any calls is granted again: its positions in their order and then its claims in theirs, each as it stands.
pub fn entry_of(record: &Record) -> Entry
    ensures value { result ≡ entry_of «record».now }
    ensures again { Replay }
{
    Entry {
        side: char::from(record.side),
        kind: char::from(record.kind),
        strike: u64::from(record.strike),
        days: u64::from(record.days),
        price: u64::from(record.price),
        quantity: u64::from(record.quantity),
    }
}
