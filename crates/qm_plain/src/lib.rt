//! Plain tree files: those of version 2 without rows and without sections, as sections keep them. This crate has only
//! definitions and laws, and no function.
#![tactic(auto)]
