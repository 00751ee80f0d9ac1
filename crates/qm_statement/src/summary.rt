/// What is counted of a map that is compiled.
#[derive(Clone, Copy)]
pub struct Summary {
    /// Whether some entity takes part, and none leaks; else no entity takes part.
    pub sealed: bool,
    /// The brushes of the world that are not clip, and those of them that are flat.
    pub brushes: u64,
    pub flat: u64,
    /// What the written tree has.
    pub planes: u64,
    pub nodes: u64,
    pub leaves: u64,
    /// The leaves that are not solid, and those that are filled.
    pub numbered: u64,
    pub filled: u64,
    /// The portals, each counted once for both ways through it.
    pub portals: u64,
    /// How many places are set in all rows; 2^64 - 1 where there are more.
    pub seen: u64,
}
