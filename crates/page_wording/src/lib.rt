//! Words for what a docket and its file have: names of sides, kinds and articles; the lines of a file, their fields, and a line shown with a mark under one of its bytes.
#![tactic(auto)]

pub mod fields;
pub mod lines;
pub mod names;
pub mod shown;
