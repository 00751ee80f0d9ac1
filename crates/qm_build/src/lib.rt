//! Builds the tree that solids define: cells are cut on their least candidates, from the whole cube on, until none has
//! one; then leaves of equal contents are joined. Both halves of a large cell can be built beside one another.
#![tactic(auto)]

mod builder;
mod division;
mod gate;
mod halves;
pub mod laws;
mod top;

pub use builder::{build, build_halves};
pub use gate::{HalvesGate, OpenHalves};
