//! The rows of all portals, found by several workers over one shared board of rows.
#![tactic(auto)]

mod alone;
mod crewing;
mod gate;
mod gated;
pub mod laws;
mod settling;
mod shared;
mod team;
mod turn;
mod worker;

pub use crewing::{Crewed, crew};
pub use gate::{Gate, OpenGate};
