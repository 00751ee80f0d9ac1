//! The tokens of a MAP text, read one after another: words and quoted tokens, each with its offsets and its line.
#![tactic(auto)]

mod lexer;
mod scan;

pub use lexer::Lexer;
