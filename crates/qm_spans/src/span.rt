/// A part of a segment in one leaf: the leaf's number, and the place at which the part ends. Places are fractions of the
/// segment's length in lowest terms, over and under.
#[derive(Clone, Copy, Debug, PartialEq, Eq)]
pub struct Span {
    pub leaf: u64,
    pub to: (u128, u128),
}
