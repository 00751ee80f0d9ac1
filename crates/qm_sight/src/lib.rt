//! Sources of the rows of portals: what a walk of chains reads, and the plain one.
#![tactic(auto)]

pub mod laws;
mod reading;
mod row_source;
mod rows;

pub use reading::has_leaf;
pub use row_source::RowSource;
pub use rows::Rows;
