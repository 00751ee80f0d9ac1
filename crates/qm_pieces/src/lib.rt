//! Reads MAP texts in pieces, as they come: tokens by single bytes, and maps with the faults that are certain whatever
//! follows.
#![tactic(auto)]

pub mod laws;
mod lazy_reader;
mod map_reader;
mod open_token;
mod owned_token;
mod piece_fault;
mod piece_lexer;
mod place;
mod text_reader;
mod whole_tokens;

pub use map_reader::MapReader;
pub use owned_token::OwnedToken;
pub use piece_fault::PieceFault;
pub use piece_lexer::PieceLexer;
