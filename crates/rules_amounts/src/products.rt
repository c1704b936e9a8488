//! Exact products, sums and differences.
ghost use Rattle.std.specs.Prelude.{◌≡◌, ◌*◌, ◌+◌, ◌-◌, ◌≤◌, max, min, pos, ◌-ℤ◌, ◌*ℤ◌, unsigned_abs};

use crate::cents::Cents;
use crate::contract_size::ContractSize;
use crate::rate::Rate;
use crate::unit_amount::UnitAmount;

impl Cents {
    /// The cents in parts.
    pub fn parts(self) -> u64
        ensures value { result ≡ self.amount * 10000 }
        ensures bound { result ≤ 5000000000 }
    {
        u64::from(self.amount) * 10_000
    }

    /// The difference of two amounts, the larger less the smaller.
    pub fn apart(self, other: Cents) -> Cents
        ensures { result.amount ≡ max self.amount other.amount - min self.amount other.amount }
    {
        Cents {
            amount: self.amount.abs_diff(other.amount),
        }
    }

    /// The sum of two amounts of cents a unit, in parts, to 10,000,000,000.
    pub fn plus(self, other: Cents) -> UnitAmount
        ensures { result.parts ≡ (self.amount + other.amount) * 10000 }
    {
        UnitAmount {
            parts: self.parts() + other.parts(),
        }
    }
}

impl Rate {
    /// The rate of some cents, in parts: nothing is rounded.
    pub fn of(self, cents: Cents) -> u64
        ensures value { result ≡ self.basis_points * cents.amount }
        ensures bound { result ≤ 5000000000 }
    {
        u64::from(self.basis_points) * u64::from(cents.amount)
    }
}

impl ContractSize {
    /// The amount of each unit, for a whole contract.
    pub fn times(self, unit: UnitAmount) -> u64
        ensures value { result ≡ self.units * unit.parts }
        ensures bound { result ≤ 10000000000000 }
    {
        u64::from(self.units) * unit.parts
    }

    /// The difference of two amounts of each unit, for a whole contract: signed, and exact below zero.
    pub fn difference(self, up: UnitAmount, down: UnitAmount) -> i64
        ensures value { result ≡ pos self.units *ℤ (pos up.parts -ℤ pos down.parts) }
        ensures bound { unsigned_abs result ≤ 10000000000000 }
    {
        // Each product is at most 10,000,000,000,000, so the casts lose nothing.
        self.times(up) as i64 - self.times(down) as i64
    }
}
