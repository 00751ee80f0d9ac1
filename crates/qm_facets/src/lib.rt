//! Bodies: what a cell has of the cube, as the list of its facets. Whether a body has a point in front of a plane, what a plane
//! leaves of it, and the cuboids that have all of it, by its facets. This crate has only definitions and laws, and no function.
#![tactic(auto)]
