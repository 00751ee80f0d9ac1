//! The brush models of a map, as the section of a tree file keeps them, and that they are read again. This crate has only
//! definitions and laws, and no function.
#![tactic(auto)]
