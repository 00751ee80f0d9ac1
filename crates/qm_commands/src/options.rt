/// How a map is compiled.
#[derive(Clone, Copy)]
pub struct Options {
    /// How many workers look for finer rows: 1 to 64. Coarse rows take none.
    pub threads: u8,
    /// Whether the rows are coarse.
    pub fast: bool,
    /// Whether the trees of both hulls are sections of the tree file.
    pub hulls: bool,
    /// Whether the brush models of entities are a section of the tree file.
    pub models: bool,
    /// Whether the faces of brushes, cut to what can be seen of them, are a section of the tree file.
    pub faces: bool,
}
