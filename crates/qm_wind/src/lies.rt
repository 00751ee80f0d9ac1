/// Where a winding lies beside a plane.
#[derive(Clone, Copy, Debug, PartialEq, Eq)]
pub enum Lies {
    /// Each of its points is in front of the plane.
    Front,
    /// Each of its points is behind the plane.
    Back,
    /// It has points on both sides.
    Across,
    /// It lies in the plane.
    On,
}
