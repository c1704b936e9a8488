//! An amount in parts as an amount in dollars.
ghost use Rattle.std.specs.Prelude.{◌≡◌, ◌<◌, true};

/// An amount in parts, printed in dollars: any u128 or i128. Zero is not negative.
#[derive(Clone, Copy, Debug, PartialEq, Eq)]
pub struct Dollars {
    pub(crate) negative: bool,
    pub(crate) parts: u128,
    ghost nonzero: { negative ≡ true → 0 < parts },
}
