//! The figures of a docket's page that no function of a docket gives by itself.
#![tactic(auto)]

mod claims;
mod gap;
mod markets;

pub use claims::{claim_figures, free_figures};
pub use gap::gap_of;
pub use markets::{claim_term, working_of};

/// What one unit or contract of a position requires alone, what is free of it, and what that comes to.
#[derive(Clone, Copy, Debug, PartialEq, Eq)]
pub struct FreeFigures {
    pub alone: u64,
    pub free: u32,
    pub amount: u128,
}

/// What a set of a claim requires, what all its sets require, what the same units require alone, and how much less the claim requires.
#[derive(Clone, Copy, Debug, PartialEq, Eq)]
pub struct ClaimFigures {
    pub set: u64,
    pub all_sets: u128,
    pub alone: u128,
    pub saved: i128,
}
