//! The fragments of brush faces inside one cell: what parts the cell next, what it has on both sides of a plane, and what
//! fills a cell that nothing parts.
#![tactic(auto)]

mod beside;
mod cell;
mod contender;
mod fragments;
mod gathering;
mod in_cube;
mod piece;
mod rank;
mod section;

pub use fragments::{CellHalves, Fragments};
