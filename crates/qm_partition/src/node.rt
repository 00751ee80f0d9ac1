use qm_contents::Contents;

/// What stands on one side of a node: another node or a leaf, by its number.
#[derive(Clone, Copy)]
pub enum Child {
    Node(u64),
    Leaf(u64),
}

/// A plane of the tree, by its number, with what is in front of it and what is behind it.
#[derive(Clone, Copy)]
pub struct Node {
    pub plane: u32,
    pub front: Child,
    pub back: Child,
}

/// A convex part of space: what lies on one side of each plane above it in the tree.
#[derive(Clone, Copy)]
pub struct Leaf {
    pub contents: Contents,
    /// Whether the leaf is marked as lying outside the map, which makes it solid.
    pub filled: bool,
}
