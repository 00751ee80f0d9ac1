//! Walks of open chains of portals, and rows of portals that are found in turns. This crate has definitions and laws, and no
//! function.
#![tactic(auto)]
