use qm_commands::Millionths;
use qm_contents::Contents;

/// What a tree file answers to a query.
#[derive(Clone, Copy)]
pub enum Answer {
    /// How many planes, nodes, leaves and numbered leaves there are, and whether rows are there.
    Count {
        planes: u64,
        nodes: u64,
        leaves: u64,
        numbered: u64,
        rows: bool,
    },
    /// The leaf at a point, and its number where it is numbered.
    Place {
        leaf: u64,
        contents: Contents,
        filled: bool,
        number: Option<u64>,
    },
    /// Whether a hull is solid at a point.
    Hull(bool),
    /// The trace of this segment is there.
    Trace {
        from: Millionths,
        to: Millionths,
    },
    /// The trace of this segment through a hull is there.
    HullTrace {
        hull: u8,
        from: Millionths,
        to: Millionths,
    },
    /// The brush model of this entity is there.
    Model(u64),
    /// What the brush model of this entity is at a point.
    ModelAt {
        entity: u64,
        contents: Contents,
    },
    /// How many faces there are.
    Faces(u64),
    /// The face of this number is there.
    Face(u64),
    /// The row of this numbered leaf is there.
    Row(u64),
    /// Whether the one leaf's row has the other.
    Sees(bool),
    /// Which version the file is, the bound of its world, and the kinds of its sections, as it says itself.
    Parts,
}
