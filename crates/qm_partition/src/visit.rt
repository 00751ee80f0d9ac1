use crate::node::Leaf;

/// What a walk meets that visits a node, then what is in front of it, then what is behind it: a node, by the number of
/// its plane, or a leaf.
#[derive(Clone, Copy)]
pub enum Visit {
    Node(u32),
    Leaf(Leaf),
}
