//! Laws of lists, least sets by work lists, values that are appended to bytes one after another, and two small types of
//! lists that contracts see as lists.
#![tactic(auto)]

mod append;
mod items;
mod parts;

pub use append::{Encoding, append_all};
pub use items::Items;
pub use parts::Parts;
