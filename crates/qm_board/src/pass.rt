use crate::view::View;
use atomic_table::Seat;

/// What one worker knows of a board. It takes steps on that board, and keeps what it has found by them.
#[derive(Drop)]
pub struct Pass {
    pub(crate) seat: Seat<(), View>,
}
