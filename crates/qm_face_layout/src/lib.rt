//! The bytes of the section of faces: one description for both directions, that it is read exactly, and its faults; and which
//! corners a face has, by a polygon. This crate has a plain type, definitions and laws, and no function.
#![tactic(auto)]

mod face_record;

pub use face_record::FaceRecord;
