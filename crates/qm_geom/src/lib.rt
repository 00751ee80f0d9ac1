//! Planes, points and corners of a map, in code: the plane through three points, the side of a plane on
//! which a point lies, and the book that numbers the planes.
#![tactic(auto)]

mod axis;
mod corner;
mod cuboid;
mod distance;
mod factor;
mod line;
mod meeting;
mod one_line;
mod plane;
mod plane_book;
mod point;
mod rounding;
mod spanned;
mod through_fault;
mod unreduced;
mod vector;
mod whole;

pub use corner::Corner;
pub use cuboid::{Cuboid, Stretch};
pub use distance::least_distance;
pub use factor::common_divisor;
pub use line::Line;
pub use one_line::are_on_one_line;
pub use plane::Plane;
pub use plane_book::PlaneBook;
pub use point::Point;
pub use rounding::rounded_down;
pub use through_fault::ThroughFault;
pub use vector::Vector;
