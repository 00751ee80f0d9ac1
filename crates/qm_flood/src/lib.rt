//! What the outside reaches of a map: the leak and its trail, or the leaves to be filled.
#![tactic(auto)]

mod answer;
mod filling;
mod flooding;
mod leaking;
mod origin;
mod passable;
mod spreading;
mod trail;

pub use answer::Flood;
pub use flooding::flood;
pub use origin::Origin;
