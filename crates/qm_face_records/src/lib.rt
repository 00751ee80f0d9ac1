//! The section of faces of the pieces of a surface.
#![tactic(auto)]

mod records;

pub use records::encode;
