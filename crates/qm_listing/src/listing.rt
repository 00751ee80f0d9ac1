use qm_lists::Items;

/// A coordinate of a corner in millionths, and whether it stands as a whole number, without decimals.
#[derive(Clone, Copy)]
pub struct Coordinate {
    pub millionths: i64,
    pub whole: bool,
}

/// A portal between two numbered leaves, and the corners around it, as one sees them from `leaf0` clockwise.
#[derive(Drop)]
pub struct PrtPortal {
    pub leaf0: u64,
    pub leaf1: u64,
    pub corners: Items<[Coordinate; 3]>,
}

/// How many numbered leaves there are, and the portals between them.
#[derive(Drop)]
pub struct Listing {
    pub leaves: u64,
    pub portals: Items<PrtPortal>,
}
