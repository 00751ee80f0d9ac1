//! What the spans of a segment say of a map, in the files that the map compiles to. This crate has only laws.
#![tactic(auto)]
