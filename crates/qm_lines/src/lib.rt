//! Which leaves straight lines show from a portal: each is followed from portal to portal by exact tests. What lines find is no
//! promise, for speed alone is at stake.
#![tactic(auto)]

mod aiming;
mod anchors;
mod crossing;
mod exits;
mod first_portal;
mod following;
mod kept_lines;
mod line;
mod line_store;
mod packing;
mod reading;
mod short_spot;
mod showing;
mod spot;
mod trace;

pub use line_store::LineStore;
pub use showing::show_by_lines;
