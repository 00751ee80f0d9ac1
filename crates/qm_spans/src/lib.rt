//! Segments through the leaves of a tree: the spans of a segment, where each ends, and how they are worked out. This crate has
//! plain types, definitions and laws, and no function.
#![tactic(auto)]

mod parting;
mod span;

pub use parting::Parting;
pub use span::Span;
