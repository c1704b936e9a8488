//! Amounts in parts as text in dollars and cents.
#![tactic(auto)]

ghost use Rattle.std.specs.Prelude.{◌≡◌, pos};
ghost use Rattle.page_money.specs.Amounts.{dollars_amount};

mod display;
mod dollars;

pub use dollars::Dollars;

impl From<u128> for Dollars {
    ghost from_gives = { λ x y. dollars_amount y ≡ pos x };

    fn from(parts: u128) -> Dollars
        ensures { dollars_amount result ≡ pos parts }
    {
        Dollars {
            negative: false,
            parts,
        }
    }
}

impl From<u64> for Dollars {
    ghost from_gives = { λ x y. dollars_amount y ≡ pos x };

    fn from(parts: u64) -> Dollars
        ensures { dollars_amount result ≡ pos parts }
    {
        Dollars::from(u128::from(parts))
    }
}

impl From<i128> for Dollars {
    ghost from_gives = { λ x y. dollars_amount y ≡ x };

    fn from(parts: i128) -> Dollars
        ensures { dollars_amount result ≡ parts }
    {
        Dollars {
            negative: parts < 0,
            parts: parts.unsigned_abs(),
        }
    }
}
