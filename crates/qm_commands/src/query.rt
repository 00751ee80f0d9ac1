use crate::millionths::Millionths;

/// What a tree file is asked.
#[derive(Clone, Copy)]
pub enum Query {
    /// How much there is in it.
    Count,
    /// What is at a point, whose coordinates are given in millionths of a map unit.
    At {
        x: i64,
        y: i64,
        z: i64,
    },
    /// Whether the tree of a hull, of which there are 1 and 2, is solid at a point, whose coordinates are given in millionths
    /// of a map unit.
    Hull {
        hull: u8,
        x: i64,
        y: i64,
        z: i64,
    },
    /// Which leaves a segment goes through, from one end to the other, and how far into it each is left.
    Trace {
        from: Millionths,
        to: Millionths,
    },
    /// The same through the tree of a hull.
    HullTrace {
        hull: u8,
        from: Millionths,
        to: Millionths,
    },
    /// The box of the brush model of an entity, and which numbered leaves it touches.
    Model(u64),
    /// What the brush model of an entity is at a point, whose coordinates are given in millionths of a map unit.
    ModelAt {
        entity: u64,
        x: i64,
        y: i64,
        z: i64,
    },
    /// How many faces there are.
    Faces,
    /// The leaf that the face of a number faces, its brush, its place among the faces of the brush, and its corners.
    Face(u64),
    /// Which leaves the row of a numbered leaf has.
    Row(u64),
    /// Whether the row of the first numbered leaf has the second.
    Sees(u64, u64),
    /// Which version of a tree file it is, the bound of its world, and the kinds of its sections.
    Parts,
}
