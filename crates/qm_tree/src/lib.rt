//! The tree of a map: planes, nodes and leaves, numbered front first, with the leaf of a point and the way to a leaf.
#![tactic(auto)]

mod filling;
mod joining;
mod not_a_tree;
mod numbered;
mod numbering;
mod parts;
mod tree;
mod way;

pub use not_a_tree::NotATree;
pub use numbered::are_numbered;
pub use qm_partition::{Child, Leaf, Node, Step, Visit};
pub use tree::Tree;
pub use way::Way;
