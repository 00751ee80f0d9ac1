//! What decimal numerals spell, and how numbers are printed as such. This crate has types, definitions and laws, and no
//! function.
#![tactic(auto)]

mod fraction;

pub use fraction::{Fraction, NumberFault};
