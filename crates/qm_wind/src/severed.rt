use crate::winding::Winding;

/// Where a winding lay beside a plane that severed it; where it had points on both sides, with the part behind.
#[derive(Drop)]
pub enum Severed {
    /// Each of its points is in front of the plane.
    Front,
    /// Each of its points is behind the plane.
    Back,
    /// It lies in the plane.
    On,
    /// It had points on both sides, and this is what was behind.
    Across(Box<Winding>),
}
