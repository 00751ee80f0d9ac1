//! The tree that solids define: which cells are nodes and on which planes, what each leaf holds, and that there is only
//! one such tree. This crate has definitions and laws, and no function.
#![tactic(auto)]
