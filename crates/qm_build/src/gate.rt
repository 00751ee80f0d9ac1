//! Where halves of a tree begin.

/// What halves of a tree tell before they are built. No clause rests on what it does with that.
pub trait HalvesGate {
    /// The half in front or behind of a cell is about to be built beside the other one. So many cells above that cell were
    /// built in halves.
    fn at(&self, depth: u8, front: bool);
}

/// A gate that does nothing.
pub struct OpenHalves;

impl HalvesGate for OpenHalves {
    fn at(&self, _depth: u8, _front: bool) {}
}
