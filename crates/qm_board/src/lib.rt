//! Rows of portals on a board that several passes share: each load and each change is one atomic step on one word, and what is
//! said of the rows holds between any two steps of any passes.
#![tactic(auto)]

mod board_rows;
mod closing;
pub mod laws;
mod opening;
mod pass;
mod plays;
mod publishing;
mod row_board;
mod rule;
mod sharing;
mod view;

pub use board_rows::BoardRows;
pub use pass::Pass;
pub use row_board::RowBoard;
