//! Finds the brush models of a map: for each entity but the world that has a full brush, its box, the numbered leaves of the
//! world that it touches, and its own tree as a plain file.
#![tactic(auto)]

mod finding;
mod numbers;
mod outline;
mod plain_model;

pub use finding::models;
pub use numbers::numbers_of;
pub use outline::{Outline, outline_of};
