//! Segments through the leaves of a tree, what a portal has in sight along them, and open chains of portals. This crate has
//! definitions and laws, and no function.
#![tactic(auto)]
