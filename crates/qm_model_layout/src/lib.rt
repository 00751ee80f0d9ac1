//! The bytes of the section of brush models: one description for both directions, that it is read exactly, and its faults. This
//! crate has only definitions and laws, and no function.
#![tactic(auto)]
