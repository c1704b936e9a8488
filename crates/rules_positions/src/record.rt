//! A record. How one is made stands in `records`, whose definitions speak of this type.
ghost use Rattle.std.specs.Prelude.{◌≡◌, true};
ghost use Rattle.rules_positions.specs.Ranges.{in_range};

use crate::{Kind, Side};

/// A record in range: what is held, and how much of it.
/// Strike and price are cents a unit; the price of an option is its premium, that of futures the daily settlement.
#[derive(Clone, Copy, Debug, PartialEq, Eq)]
pub struct Record {
    pub side: Side,
    pub kind: Kind,
    pub strike: u32,
    pub days: u16,
    pub price: u32,
    pub quantity: u32,
    ghost ranged: { in_range side kind strike days price ≡ true },
}
