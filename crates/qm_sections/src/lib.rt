//! Makes the sections that stand in a file beside the tree of a map.
#![tactic(auto)]

mod asked;
mod face_section;
mod hull_sections;
mod model_section;
mod section_of_bytes;
mod surface_parts;

pub use asked::sections;
pub use surface_parts::SurfaceParts;
