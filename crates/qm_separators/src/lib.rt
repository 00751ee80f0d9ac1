//! Separators of two windings, and the step of a chain of portals by them. This crate has definitions and laws, and no
//! function.
#![tactic(auto)]
