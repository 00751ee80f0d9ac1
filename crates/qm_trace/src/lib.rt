//! A segment is followed through a tree, leaf by leaf, with the exact places at which it passes from one to the next.
#![tactic(auto)]

mod crossing;
mod cube;
pub mod laws;
mod near;
mod parting;
mod trace_fault;
mod tracer;
mod walk;

pub use qm_spans::Span;
pub use trace_fault::TraceFault;
pub use tracer::Tracer;
