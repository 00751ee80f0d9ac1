//! The space of a map: points, planes and the world's cube in whole numbers, and the laws on which
//! all geometry stands. This crate has definitions and laws, one constant, and no function.
#![tactic(auto)]

mod bounds;

pub use bounds::WORLD_EXTENT;
