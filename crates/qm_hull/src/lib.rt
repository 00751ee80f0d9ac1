//! Makes the clip hulls of a map: trees in which a moving box is a point, each as a plain tree file. The halves of a hull can be
//! built beside one another, and both hulls.
#![tactic(auto)]

mod hulls;
pub mod laws;
mod moved_world;
mod plain_tree;

pub use hulls::{hull, hull_halves, hulls_halves};
