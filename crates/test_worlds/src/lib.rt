//! What tests share: generated worlds, the trees and portals of worlds that MAP texts give, segments through trees, and what
//! segments and open chains show.
#![tactic(auto)]

mod chains;
mod mazes;
mod seen;
mod segments;
mod worlds;

pub use chains::{lists_of, shown};
pub use mazes::{maze, point};
pub use seen::{all_passed, has, have_passed, portal_between};
pub use segments::{Segment, row_of};
pub use worlds::{tree_of, world_of};
