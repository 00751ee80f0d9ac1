//! Rows of portals that passes share on a board: the words, what each pass has found, the steps, and the rule that each step
//! keeps. This crate has definitions and laws, and no function.
#![tactic(auto)]
