//! Half-spaces, and what several of them have in common of the cube: whether there is a point, as a body by its facets; how a
//! plane parts a body; and the box round it.
#![tactic(auto)]

mod axial;
mod body;
mod cutting;
mod ends;
mod extents;
mod facing;
mod half;
mod opening;

pub use body::{Body, BodyHalves};
pub use extents::Extents;
pub use half::Half;
pub use opening::open_point;
