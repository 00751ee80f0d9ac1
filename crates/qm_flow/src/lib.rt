//! The flow of one portal: which leaves open chains show from it, over any source of rows.
#![tactic(auto)]

mod bars;
mod cheap_tests;
mod cone;
mod flow_state;
mod frame;
mod frame_stack;
mod masks;
mod own_rows;
mod pair_rows;
mod portal_row;
mod room;
mod rounds;
mod searches;
mod step;
mod tries;

pub use portal_row::flow;
