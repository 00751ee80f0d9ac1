//! What fills a part of space: the kinds of contents with their codes, which texture names give them,
//! and which of two is the stronger.
#![tactic(auto)]

mod codes;
mod contents;
mod precedence;
mod texture;

pub use codes::{code, of_code};
pub use contents::Contents;
pub use precedence::stronger;
pub use texture::of_texture;
