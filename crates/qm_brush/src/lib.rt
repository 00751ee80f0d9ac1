//! From a map to the solids of its entities: which brushes each has, what fills them, and behind which planes they lie.
#![tactic(auto)]

mod blocking;
mod brush_list;
mod entering;
mod entry;
mod fullness;
mod listing;
mod middle;
mod moving;
mod sides;
mod world;

pub use blocking::moved;
pub use brush_list::BrushList;
pub use listing::{brushes, brushes_of};
pub use qm_contents::Contents;
pub use qm_half_spaces::{Half, open_point};
pub use qm_solids::FaceRef;
pub use sides::inner_side;
