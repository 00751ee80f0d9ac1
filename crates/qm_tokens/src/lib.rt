//! What the tokens of a MAP text are: words and quoted tokens, each with its offsets and its line. This crate has types,
//! definitions and laws, and no function.
//!
//! Bytes up to 32 part tokens. `//` where a token would start is a comment to the end of its line, and `"` there
//! opens a quoted token, which ends at the next `"`. Any other byte opens a word, which goes on until a byte up
//! to 32 or the end of the text.
#![tactic(auto)]

mod token;

pub use token::{LexFault, Token, TokenKind};
