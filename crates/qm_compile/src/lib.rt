//! All that the program does: it reads the words, carries out the command that they are, and prints what came of it.
#![tactic(auto)]

mod exit;
mod generating;
mod inspecting;
pub mod laws;
mod ordering;
mod program;
mod refusal_line;
mod report;
mod tree_fault_line;
mod tree_reading;
mod upgrading;

pub use exit::exit_number;
pub use program::run;
pub use qm_commands::Options;
pub use qm_compiler::{Compiled, compile};
pub use qm_crew::{Gate, OpenGate};
pub use qm_statement::{Status, Summary};
