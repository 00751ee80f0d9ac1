//! A binary space partition: a tree of planes whose leaves are the parts of space, as plain types and as definitions. It
//! has the leaf of a point, the ways down to the leaves with their cells, and how nodes and leaves are numbered. This
//! crate has a few plain types, definitions and laws, and no function.
#![tactic(auto)]

mod node;
mod step;
mod visit;

pub use node::{Child, Leaf, Node};
pub use step::Step;
pub use visit::Visit;
