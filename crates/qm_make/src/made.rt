use crate::outcome::Outcome;

/// What a command makes of a map, and what comes of the command once it is written.
#[derive(Drop)]
pub struct Product {
    pub file: Vec<u8>,
    /// The text of a listing, where one is asked for and no entity leaks.
    pub listing: Option<Vec<u8>>,
    pub outcome: Outcome,
}
