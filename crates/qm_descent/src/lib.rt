//! Which leaves of a tree a body reaches: the body goes down from the root, and is cut where a node's plane meets it.
#![tactic(auto)]

mod due;
mod walk;

pub use walk::reached_leaves;
