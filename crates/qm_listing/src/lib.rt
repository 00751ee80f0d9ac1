//! Portal listings as text: which text a listing has, what is read of a text, and which listings a world has. This crate
//! has plain types, definitions and laws, and no function.
#![tactic(auto)]

mod listing;

pub use listing::{Coordinate, Listing, PrtPortal};
