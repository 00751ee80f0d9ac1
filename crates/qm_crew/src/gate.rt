//! What workers call as they go.

/// What workers call as they go. No clause rests on what a gate does.
pub trait Gate {
    /// A worker has drawn a portal, and is about to flow it.
    fn at(&self, portal: u64);

    /// The flow of a portal is given word `k` of the row of a source.
    fn given(&self, portal: u64, source: u64, k: u64, word: u64);
}

/// A gate that does nothing.
pub struct OpenGate;

impl Gate for OpenGate {
    fn at(&self, _portal: u64) {}

    fn given(&self, _portal: u64, _source: u64, _k: u64, _word: u64) {}
}
