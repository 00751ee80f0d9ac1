//! The section of faces, written and read: its bytes of a list of faces, and the faces of bytes or the first fault with its place.
#![tactic(auto)]

mod face_bytes;
mod face_form;
mod face_reading;
mod faces_fault;
mod field_bytes;
mod laws;
mod named_planes;
mod numbering;
mod reading;
mod writing;

pub use faces_fault::FacesFault;
pub use laws::{exact_faces_layout, first_faces_fault, own_faces_bytes, read_face_section};
pub use named_planes::named_plane;
pub use numbering::plane_number;
pub use qm_face_layout::FaceRecord;
pub use reading::decode;
pub use writing::encode_records;
