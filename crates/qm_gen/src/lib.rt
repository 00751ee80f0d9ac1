//! The generator of rooms: a large valid map from a number.
#![tactic(auto)]

mod entities;
mod gen_fault;
mod generator;
mod room_list;
mod stone;
mod stone_box;

pub use gen_fault::GenFault;
pub use generator::rooms;
