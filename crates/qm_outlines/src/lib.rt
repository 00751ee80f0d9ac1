//! What the model of an entity with brushes is: its box, the leaves of the world's tree that it touches, and its own tree; and
//! what these say of sight. This crate has only definitions and laws, and no function.
#![tactic(auto)]
