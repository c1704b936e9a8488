//! The lines of a file, the limit on its length, the faults of reading them, and the head of a docket's file: contract size and sheet.
#![tactic(auto)]

pub mod faults;
pub mod head;
pub mod limit;
pub mod lines;
pub mod reader;
