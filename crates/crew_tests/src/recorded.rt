//! A board that is read, with a record of what it answers.

use qm_board::BoardRows;
use qm_sight::RowSource;
use std::alloc::Global;

/// An answer: word `k` of the row of a portal.
#[derive(Clone, Copy)]
pub struct Answer {
    pub portal: u64,
    pub k: u64,
    pub word: u64,
}

/// A source that answers as a board does, and records each answer.
#[derive(Drop)]
pub struct Recorded<'a> {
    rows: BoardRows<'a>,
    answers: Vec<Answer>,
    /// Whether there was no memory for an answer.
    lost: bool,
}

impl<'a> Recorded<'a> {
    ghost use Rattle.std.specs.Prelude.{◌≡◌};

    pub fn over(alloc: Global, rows: BoardRows<'a>) -> Recorded<'a>
        ensures { result.rows ≡ rows.entry }
    {
        Recorded {
            rows,
            answers: Vec::new(alloc),
            lost: false,
        }
    }

    /// All answers, in order; none where there was no memory for one.
    pub fn into_answers(self) -> Option<Vec<Answer>> {
        let Recorded { answers, lost, .. } = self;
        if lost { None } else { Some(answers) }
    }
}

impl<'a> RowSource for Recorded<'a> {
    ghost use Rattle.qm_board.specs.BoardSource.{world_on, ceilings_on, GoesOnWithMore, board_goes_on_itself, board_goes_on_in_turn, one_board_world, none_wider};

    ghost world = { λ s. world_on s.rows };

    ghost ceilings = { λ s. ceilings_on s.rows };

    ghost goes_on = { λ a b. GoesOnWithMore a.rows b.rows };

    fn word(&mut self, portal: u64, k: u64) -> u64 {
        let word = self.rows.word(portal, k);
        self.lost |= self.answers.push(Answer { portal, k, word }).is_err();
        word
    }

    ghost goes_on_itself = { λ s. board_goes_on_itself s.rows };

    ghost goes_on_in_turn = { λ a b c. board_goes_on_in_turn a.rows b.rows c.rows };

    ghost same_world = { λ a b. one_board_world a.rows b.rows };

    ghost narrower = { λ a b. none_wider a.rows b.rows };
}
