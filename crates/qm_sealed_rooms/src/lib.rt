//! The laws of generated rooms: their map is valid, and none leaks. This crate has only laws.
#![tactic(auto)]
