//! The coarse rows of all portals.
#![tactic(auto)]

mod beside;
mod column;
mod entering;
mod finding;
mod lane;
mod runs;
mod sweeping;
mod table;
mod ways;

pub use finding::base;
