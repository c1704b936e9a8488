//! A docket's file, read to the docket and the marks that it describes.
#![tactic(auto)]

mod body;
mod files;
pub mod values;

pub use body::Body;
pub use files::gather;
