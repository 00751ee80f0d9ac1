//! The rows of all leaves, by the rows of portals.
#![tactic(auto)]

mod rows;
mod total;

pub use rows::leaf_rows;
pub use total::seen;
