/// On which sides of a plane a winding has corners: those on which it has points.
#[derive(Clone, Copy, Debug, PartialEq, Eq)]
pub struct CornerSides {
    /// Whether one is strictly in front.
    pub in_front: bool,
    /// Whether one is strictly behind.
    pub behind: bool,
}
