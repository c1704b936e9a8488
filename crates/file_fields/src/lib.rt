//! Numbers, words and fields in the bytes of a file.
#![tactic(auto)]

pub mod fields;
pub mod numbers;
mod tokens;
pub mod values;

/// The field that is ill-formed, missing or too many, by its place in the line.
#[derive(Debug, Clone, Copy, PartialEq, Eq)]
pub struct BadField {
    pub place: usize,
}
