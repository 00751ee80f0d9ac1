//! Which brushes stand in the way of a moving box, and their planes moved outward by it. Where the box meets a brush, the point
//! at which it is set is behind all moved planes of that brush. This crate has only definitions and laws, and no function.
#![tactic(auto)]
