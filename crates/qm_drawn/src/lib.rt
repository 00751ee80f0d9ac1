//! The drawn world of a map: which brushes are drawn, what fills them, their planes, and the solids that they are. This crate has
//! definitions alone, and no function.
#![tactic(auto)]
