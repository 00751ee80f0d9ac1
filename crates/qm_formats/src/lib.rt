//! How rows of visibility and tree files are written: layouts that say for both directions what bytes a value has and what
//! is read, the coding of zeros in runs, and the tree file. This crate has only definitions and laws.
#![tactic(auto)]
