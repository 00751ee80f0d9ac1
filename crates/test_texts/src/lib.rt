//! Parts of MAP texts that tests make: faces by their points, boxes, rooms, and worlds of boxes.
#![tactic(auto)]

mod boxes;
mod faces;
mod rooms;

pub use boxes::{BoxRow, boxes_on_both_sides, put_box, put_boxes, text_of};
pub use faces::{points_across, put_face, put_fine_face};
pub use rooms::{CORNER_ROOMS, ROOM, TWO_ROOMS};
