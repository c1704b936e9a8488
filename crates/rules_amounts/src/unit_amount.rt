//! An amount for one unit.
ghost use Rattle.std.specs.Prelude.{◌≤◌};

/// An amount for one unit of the underlying, in parts, to 10,000,000,000.
#[derive(Clone, Copy, Debug, PartialEq, Eq, PartialOrd, Ord)]
pub struct UnitAmount {
    pub parts: u64,
    ghost high: { parts ≤ 10000000000 },
}
