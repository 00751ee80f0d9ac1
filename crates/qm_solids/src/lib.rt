//! What a solid is and does: the part of space behind all its planes, whether it is full, which points it holds, and
//! what several solids make of a point. This crate has one plain type, definitions
//! and laws, and no function.
#![tactic(auto)]

mod face;

pub use face::FaceRef;
