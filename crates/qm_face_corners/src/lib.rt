//! The corners of a face by a pane, each by the numbers of its planes.
#![tactic(auto)]

mod corners;
mod kept_number;
mod laws;
mod plane_numbers;

pub use corners::numbered_corners;
pub use laws::corners_turn;
pub use plane_numbers::PlaneNumbers;
