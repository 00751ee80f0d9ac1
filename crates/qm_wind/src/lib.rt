//! Windings: convex polygons on planes inside the world's cube, cut exactly; panes; and the laws of
//! windings, for the layers above.
#![tactic(auto)]

mod across;
mod any_corner;
mod axial_cell;
mod circle;
mod corner_sides;
mod cutting;
mod faces;
mod found;
mod halves;
pub mod laws;
mod lies;
mod pane;
mod polygon;
mod severed;
mod survey;
mod walls;
mod winding;

pub use corner_sides::CornerSides;
pub use halves::Halves;
pub use lies::Lies;
pub use pane::Pane;
pub use severed::Severed;
pub use winding::{Clip, Side, Winding};
