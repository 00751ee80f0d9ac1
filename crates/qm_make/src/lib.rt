//! Carries out commands that read a map and write what is made of it, `compile` and `format`, and makes of a tree file what
//! `upgrade` writes.
#![tactic(auto)]

mod carrying_out;
mod count_lines;
mod fault_text;
mod files;
mod format;
mod made;
mod make;
mod outcome;
mod printed;
mod putting_out;
mod reading;
mod upgrading;
mod writing;

pub use carrying_out::carry_out_command;
pub use files::Files;
pub use outcome::Outcome;
pub use printed::summary_text;
pub use upgrading::{Upgrade, make_upgrade};
