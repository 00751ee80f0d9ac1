//! Portal listings as text, printed and read: the listing of a world, and the listing of a text or the first fault with its
//! place.
#![tactic(auto)]

mod coordinates;
mod laws;
mod lines;
mod numbers;
mod places;
mod portals;
mod printing;
mod prt_fault;
mod reading;

pub use coordinates::first_corner_of;
pub use laws::{
    exact_layout, no_listing_cut_off, one_listing, printed_coordinates, turned_corners,
};
pub use printing::print;
pub use prt_fault::PrtFault;
pub use qm_listing::{Coordinate, Listing, PrtPortal};
pub use reading::read;
