//! Panes with what is asked of them first: cuboids that have them, and whether these are full.
#![tactic(auto)]

mod extent;
mod filled;
mod measured_pane;

pub use extent::Extent;
pub use measured_pane::MeasuredPane;
