use crate::options::Options;

/// What a command does with the map that it reads.
#[derive(Clone, Copy)]
pub enum MapCommand {
    /// Writes the tree file of the map, and a listing of its world where one is asked for.
    Compile { options: Options, listed: bool },
    /// Writes the canonical text of the map.
    Format,
}
