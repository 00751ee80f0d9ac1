//! Decimal numbers, read and printed exactly.
#![tactic(auto)]

mod backward;
mod decimals;
mod print;
mod reader;
mod whole;

pub use print::{nearest_millionths, print6};
pub use reader::read;
