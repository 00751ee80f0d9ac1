use crate::mark::Mark;

/// What one token of a face is for.
#[derive(Clone, Copy)]
pub enum Slot {
    /// This mark.
    Mark(Mark),
    /// A coordinate of a point.
    Coordinate,
    Texture,
    /// The first token of the mapping, which tells its form: `[` begins the form with axes.
    FirstOfMapping,
    /// A word of the mapping.
    Word,
}
