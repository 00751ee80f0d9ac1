//! What the faces of a file say of the map that it was compiled from. This crate has only definitions and laws, and no function.
#![tactic(auto)]
