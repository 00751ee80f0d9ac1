use crate::winding::Winding;

/// The parts of a winding on both sides of a plane; `None` where no point of it is on that side.
#[derive(Drop)]
pub struct Halves {
    pub front: Option<Winding>,
    pub back: Option<Winding>,
}
