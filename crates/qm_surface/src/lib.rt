//! The surface of a map: its boundary points, the brush that owns each, and the polygons into which brushes cut it. This crate
//! has only definitions and laws, and no function.
#![tactic(auto)]
