//! The contacts of a tree's leaves: which of them touch one another, through which polygon, and which touch the outside; and
//! the portals between leaves of equal contents.
#![tactic(auto)]

mod bounds;
mod cell;
mod exit;
mod finding;
pub mod laws;
mod leaving;
mod links;
mod making;
mod neighbours;
mod numbers;
mod pairs;
mod passages;
mod piece;
mod portal;
mod pushing;
mod touch_list;
mod touching;
mod walk;
mod worlds;

pub use exit::Exit;
pub use finding::touches;
pub use making::world;
pub use touch_list::TouchList;
pub use touching::Touching;
pub use worlds::World;
