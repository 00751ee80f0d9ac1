//! Compiles a map to a tree with rows of visibility, and looks for leaks.
#![tactic(auto)]

mod asking;
mod building;
mod compiled;
mod compiling;
mod counting;
mod entity_origins;
mod new_file;
mod preparing;
mod rows;

pub use compiled::Compiled;
pub use compiling::compile;
