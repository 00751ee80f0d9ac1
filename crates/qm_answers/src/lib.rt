//! What a tree file answers to queries, what its sections are decoded to, and how answers and refusals are printed. This crate
//! has plain types and definitions, and no function.
#![tactic(auto)]

mod answer;
mod decoded_section;
mod query_fault;

pub use answer::Answer;
pub use decoded_section::DecodedSection;
pub use query_fault::QueryFault;
