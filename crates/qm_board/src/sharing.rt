//! Passes that are split and joined.

ghost use Rattle.std.specs.Prelude.{◌≡◌};

use crate::pass::Pass;
use crate::plays::{JoinPasses, SplitPass};
use crate::row_board::RowBoard;

impl RowBoard {
    ghost use Rattle.qm_board.specs.PassOf.{findings_of, IsPassOf};
    ghost use Rattle.qm_shared_rows.specs.Findings.{without_drawn, found_by_both};

    /// Two passes of this board, which have found what the pass has. The numbers that it has drawn stay with the first alone.
    /// It takes no memory.
    pub fn split(&self, pass: Pass) -> (Pass, Pass)
        requires { IsPassOf self.now pass }
        ensures first { IsPassOf self.now result.0 }
        ensures second { IsPassOf self.now result.1 }
        ensures first_found { findings_of result.0 ≡ findings_of pass }
        ensures second_found { findings_of result.1 ≡ without_drawn (findings_of pass) }
    {
        let Pass { mut seat } = pass;
        let other = self.table.shared.split_seat::<SplitPass>(&mut seat);
        (Pass { seat }, Pass { seat: other })
    }

    /// One pass of this board, which has found what both have. It takes no memory.
    pub fn join(&self, pass: Pass, other: Pass) -> Pass
        requires pass { IsPassOf self.now pass }
        requires other { IsPassOf self.now other }
        ensures pass { IsPassOf self.now result }
        ensures found { findings_of result ≡ found_by_both (findings_of pass) (findings_of other) }
    {
        let Pass { mut seat } = pass;
        let Pass { seat: other_seat } = other;
        self.table
            .shared
            .join_seat::<JoinPasses>(&mut seat, other_seat);
        Pass { seat }
    }
}
