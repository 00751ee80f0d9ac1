/// A step down from a node: the number of its plane, and whether it leads to the front.
#[derive(Clone, Copy)]
pub struct Step {
    pub plane: u32,
    pub front: bool,
}
