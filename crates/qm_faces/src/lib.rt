//! Cuts the surface of a map into polygons, each part of one face of one brush.
#![tactic(auto)]

mod boundary;
mod carving;
mod cutting;
mod face_piece;
mod owners;
mod part;
mod rows;
mod surface;

pub use face_piece::FacePiece;
pub use surface::faces;
