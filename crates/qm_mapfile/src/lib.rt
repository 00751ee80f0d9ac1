//! What a MAP text says: entities with their pairs and brushes, and brushes with their faces. Plain data
//! that contracts see as nested lists.
#![tactic(auto)]

mod entity;
mod face;
mod text;

pub use entity::{Brush, Entity, MapFile, Pair};
pub use face::{Face, Mapping};
pub use text::Text;
