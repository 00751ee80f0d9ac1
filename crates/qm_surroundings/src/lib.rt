//! What a program sees and changes outside of itself: the states of a shelf of named files and of a sink for printed text, and
//! what happens to them between two moments. This crate has definitions alone, and no function.
#![tactic(auto)]
