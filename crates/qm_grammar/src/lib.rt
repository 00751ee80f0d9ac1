//! The grammar of a MAP text: what its tokens spell, where a token is refused, and which fault of a text comes first.
//! This crate has a few plain types, definitions and laws, and no function.
#![tactic(auto)]

mod context;
mod fault;
mod limit;
mod mark;
mod refusal;
mod slot;
mod unit;

pub use context::Context;
pub use fault::MapFault;
pub use limit::TEXT_LIMIT;
pub use mark::{Mark, Sort};
pub use refusal::Refusal;
pub use slot::Slot;
pub use unit::PARTS_OF_UNIT;
