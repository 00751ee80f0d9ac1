use qm_file::TreeFile;
use qm_lists::Items;
use qm_portal::World;
use qm_statement::Summary;

/// What a map compiles to.
#[derive(Drop)]
pub enum Compiled {
    /// No entity leaks: the tree with filled leaves and with rows, its portals, and what is counted.
    Done {
        file: TreeFile,
        world: World,
        summary: Summary,
    },
    /// An entity leaks: the tree without a filled leaf and without rows, the entity's number in the map, and the leaves of
    /// its trail.
    Leak {
        file: TreeFile,
        entity: u64,
        trail: Items<u64>,
    },
}
