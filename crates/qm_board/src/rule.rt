ghost use Rattle.qm_board.specs.BoardRule.{holds_over, given_in, first_view};

use crate::view::View;
use atomic_table::TableRule;
use qm_portal::World;
use std::snapshot::Snapshot;

/// What a board is told once: its world, and its words at the start.
pub type Key = (Snapshot<World>, Snapshot<Vec<u64>>);

/// All that is on the board comes from the rows given by a list of steps.
pub struct Rule;

impl TableRule<(), View, Key> for Rule {
    ghost holds = { λ key. holds_over key.0.value (given_in key.0.value key.1.value.items) };

    ghost first = { λ key. first_view key.0.value key.1.value.items };
}
