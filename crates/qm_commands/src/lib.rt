//! Which words are a command of the program, and what they ask for. This crate has a few plain types and definitions, and no
//! function.
#![tactic(auto)]

mod map_command;
mod millionths;
mod options;
mod query;

pub use map_command::MapCommand;
pub use millionths::Millionths;
pub use options::Options;
pub use query::Query;
