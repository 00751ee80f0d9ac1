//! Which leaves of a tree a cell reaches: those that have a point of the cube in it; and how a body goes down a tree to them.
//! This crate has only definitions and laws, and no function.
#![tactic(auto)]
