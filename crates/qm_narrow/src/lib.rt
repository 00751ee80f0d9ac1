//! Separating planes of two windings, exactly, and the steps of a chain of portals by them.
#![tactic(auto)]

mod across;
mod aims;
mod bare_state;
mod beam;
mod beyond;
mod candidates;
mod chain_state;
mod corner_lists;
mod crossing;
mod divisor;
mod edge;
mod fine;
pub mod laws;
mod lowest;
mod multiples;
mod near;
mod normal;
mod outlook;
mod pair;
mod passing;
mod places;
mod reach;
mod seeing;
mod separating;
mod sides;
mod sizes;
mod spot;
mod step_buffers;
mod stepping;
mod traced;
mod turn;
mod whole;

pub use chain_state::ChainState;
pub use passing::{may_pass, may_pass_measured};
pub use separating::separators;
pub use step_buffers::StepBuffers;
pub use stepping::{leads_on, step, step_into};
