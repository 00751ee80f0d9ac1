//! The coding of zeros in rows of visibility: a byte that is not zero stands for itself, and a zero byte is followed by the
//! number of zeros in the run.
#![tactic(auto)]

mod laws;
mod reading;
mod run_fault;
mod writing;

pub use laws::{first_fault, no_prefix, one_answer, one_spelling};
pub use reading::{decode, decode_into};
pub use run_fault::RunFault;
pub use writing::encode;
