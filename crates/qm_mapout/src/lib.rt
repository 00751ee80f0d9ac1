//! Prints maps as canonical MAP texts.
#![tactic(auto)]

mod entity;
mod face;
pub mod laws;
mod line;
mod printer;

pub use printer::print;
