//! What the spans of a segment say of the solids from which a tree was made. This crate has only laws.
#![tactic(auto)]
