//! Reads MAP texts: the map that a text means, or the first fault with its line.
#![tactic(auto)]

mod empties;
mod entity_origin;
mod face;
mod face_steps;
pub mod laws;
mod lines;
mod list;
mod number;
mod origin;
mod reader;
mod slots;
mod sort;
mod stop;
mod text;
mod words;

pub use entity_origin::EntityOrigin;
pub use qm_grammar::MapFault;
pub use qm_mapfile::{Brush, Entity, Face, MapFile, Mapping, Pair, Text};
pub use reader::Reader;
pub use stop::Stop;
pub use text::{fault_of, parse};
