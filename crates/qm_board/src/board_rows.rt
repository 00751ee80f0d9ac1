ghost use Rattle.std.specs.Prelude.{◌≡◌};
ghost use Rattle.std.specs.Coded.{codes};
ghost use Rattle.qm_partition.specs.inner.TreeCode.{tree_code};
ghost use Rattle.qm_board.specs.PassOf.{IsPassOf};

use crate::pass::Pass;
use crate::row_board::RowBoard;
use qm_sight::RowSource;

/// A board as a source of rows, read through a pass. Its ceilings are those that the pass has found.
#[derive(Drop)]
pub struct BoardRows<'a> {
    board: &'a RowBoard,
    pass: Pass,
    ghost ours: { IsPassOf board.now pass } by { Prim.hlevel (codes, tree_code) },
}

impl<'a> BoardRows<'a> {
    /// The rows of a board, read through a pass of it. It takes no memory.
    pub fn over(board: &'a RowBoard, pass: Pass) -> BoardRows<'a>
        requires { IsPassOf board.now pass }
        ensures board { result.board.now ≡ board.now }
        ensures pass { result.pass ≡ pass }
    {
        BoardRows { board, pass }
    }

    /// The pass, given back as it is now, which is one of its board. It takes no memory.
    pub fn into_pass(self) -> Pass
        ensures pass { result ≡ self.entry.pass }
        ensures ours { IsPassOf self.entry.board.now result }
    {
        let BoardRows { pass, .. } = self;
        pass
    }
}

impl<'a> RowSource for BoardRows<'a> {
    ghost use Rattle.qm_board.specs.BoardSource.{world_on, ceilings_on, GoesOnWithMore, board_goes_on_itself, board_goes_on_in_turn, one_board_world, none_wider};

    ghost world = { world_on };

    ghost ceilings = { ceilings_on };

    ghost goes_on = { GoesOnWithMore };

    fn word(&mut self, portal: u64, k: u64) -> u64 {
        self.board.word(&mut self.pass, portal, k)
    }

    ghost goes_on_itself = { board_goes_on_itself };

    ghost goes_on_in_turn = { board_goes_on_in_turn };

    ghost same_world = { one_board_world };

    ghost narrower = { none_wider };
}
