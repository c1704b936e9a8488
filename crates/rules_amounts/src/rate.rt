//! A rate.
ghost use Rattle.std.specs.Prelude.{◌≡◌, ◌≤◌};
ghost use Rattle.std.specs.Option.{option_map};
ghost use Rattle.rules_amounts.specs.Ranges.{within};

/// A rate in basis points, from 0 to 10,000, which is 100%.
#[derive(Clone, Copy, Debug, PartialEq, Eq, PartialOrd, Ord)]
pub struct Rate {
    pub basis_points: u16,
    ghost high: { basis_points ≤ 10000 },
}

impl Rate {
    /// The rate, or none beyond 10,000.
    pub fn new(basis_points: u64) -> Option<Rate>
        ensures { option_map (λ (c : Rate). c.basis_points) result ≡ within 0 10000 basis_points }
    {
        // At most 10,000, so the cast loses nothing.
        Some(Rate {
            basis_points: crate::within(0, 10_000, basis_points)? as u16,
        })
    }
}
