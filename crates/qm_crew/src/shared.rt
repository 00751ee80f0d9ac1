use qm_board::RowBoard;
use qm_portal::World;

/// What all turns share: a world, and the board with the rows of its portals.
#[derive(Drop)]
pub(crate) struct SharedWorld<'a> {
    pub(crate) world: &'a World,
    pub(crate) board: &'a RowBoard,
}
