//! What a run of the program comes to: what a map compiles to, what becomes of files, what is printed, and with which status
//! it ends. This crate has a few plain types, definitions and laws, and no function.
#![tactic(auto)]

mod status;
mod summary;

pub use status::Status;
pub use summary::Summary;
