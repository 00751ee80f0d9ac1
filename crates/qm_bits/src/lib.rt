//! Rows of bits, which contracts see as lists of truth values.
#![tactic(auto)]

mod bit_row;
mod words;

pub use bit_row::BitRow;
