//! The words of a command: what they ask for, and whether they are one.
#![tactic(auto)]

mod compile;
mod found;
mod inspect;
mod lines;
mod numbers;
mod order;
mod pairs;
mod places;
mod queries;
mod spelling;
mod words;

pub use order::{Order, WordsFault};
pub use words::read;
