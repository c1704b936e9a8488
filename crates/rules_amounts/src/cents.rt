//! An amount in whole cents.
ghost use Rattle.std.specs.Prelude.{◌≡◌, ◌≤◌};
ghost use Rattle.std.specs.Option.{option_map};
ghost use Rattle.rules_amounts.specs.Ranges.{within};

/// Whole cents a unit: a price, a strike, a premium or a settlement, to 500,000.
#[derive(Clone, Copy, Debug, PartialEq, Eq, PartialOrd, Ord)]
pub struct Cents {
    pub amount: u32,
    ghost high: { amount ≤ 500000 },
}

impl Cents {
    /// The amount, or none beyond 500,000.
    pub fn new(amount: u64) -> Option<Cents>
        ensures { option_map (λ (c : Cents). c.amount) result ≡ within 0 500000 amount }
    {
        // At most 500,000, so the cast loses nothing.
        Some(Cents {
            amount: crate::within(0, 500_000, amount)? as u32,
        })
    }
}
