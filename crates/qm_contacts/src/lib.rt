//! Where the leaves of a tree touch one another and the outside, which leaves are numbered, through which portals one goes
//! between them, and what is reached from the outside. This crate has plain types, definitions and laws, and no function.
#![tactic(auto)]
