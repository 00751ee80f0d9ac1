//! The section of brush models, written and read: its bytes of a list of models, and the models of bytes or the first fault with
//! its place.
#![tactic(auto)]

mod box_fields;
mod brush_model;
mod field_bytes;
mod kept_reading;
mod laws;
mod model_reading;
mod models_fault;
mod reading;
mod writing;

pub use brush_model::{BoundingBox, BrushModel};
pub use laws::{exact_models_layout, first_models_fault, own_models_bytes, read_section};
pub use models_fault::ModelsFault;
pub use reading::decode_models;
pub use writing::encode_models;
