//! The maps of rooms that are generated from a number. This crate has only definitions and laws.
#![tactic(auto)]
