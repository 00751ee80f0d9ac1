//! The tree of a map in which a moving box is a point, and the file that keeps it. This crate has only definitions, and no
//! function.
#![tactic(auto)]
