//! Convex polygons on a plane, kept as the planes of their edges: what they are, and the laws by which
//! they are cut exactly. This crate has definitions and laws alone, and no function.
#![tactic(auto)]
