use qm_bits::BitRow;
use qm_lists::Items;

/// What the outside makes of a map.
#[derive(Drop)]
pub enum Flood {
    /// Some entity takes part, and none leaks; the leaves that are to be filled.
    Sealed(BitRow),
    /// No entity takes part.
    NoEntity,
    /// The first entity that leaks, by its number in the map, and the leaves of its trail, from its own to the outside.
    Leak { entity: u64, trail: Items<u64> },
}
