//! The size of a contract.
ghost use Rattle.std.specs.Prelude.{◌≡◌, ◌≤◌};
ghost use Rattle.std.specs.Option.{option_map};
ghost use Rattle.rules_amounts.specs.Ranges.{within};

/// The units of the underlying in one contract, from 1 to 1,000.
#[derive(Clone, Copy, Debug, PartialEq, Eq, PartialOrd, Ord)]
pub struct ContractSize {
    pub units: u16,
    ghost low: { 1 ≤ units },
    ghost high: { units ≤ 1000 },
}

impl ContractSize {
    /// The size, or none outside 1 to 1,000.
    pub fn new(units: u64) -> Option<ContractSize>
        ensures { option_map (λ (c : ContractSize). c.units) result ≡ within 1 1000 units }
    {
        // At most 1,000, so the cast loses nothing.
        Some(ContractSize {
            units: crate::within(1, 1_000, units)? as u16,
        })
    }
}
