//! What each step on a word tells its pass.

ghost use Rattle.qm_board.specs.Tellings.{row_word_loaded, done_word_loaded, row_word_cut, marked_done, number_drawn, left_view, right_view, both_views, spent_view};

use crate::view::View;
use atomic_table::{Join, Play, Split};

pub struct LoadRowWord;

impl Play<(), View> for LoadRowWord {
    ghost then = { row_word_loaded };
}

pub struct LoadDoneWord;

impl Play<(), View> for LoadDoneWord {
    ghost then = { done_word_loaded };
}

pub struct CutRowWord;

impl Play<(), View> for CutRowWord {
    ghost then = { row_word_cut };
}

pub struct MarkDone;

impl Play<(), View> for MarkDone {
    ghost then = { marked_done };
}

pub struct DrawNumber;

impl Play<(), View> for DrawNumber {
    ghost then = { number_drawn };
}

pub struct SplitPass;

impl Split<View> for SplitPass {
    ghost left = { left_view };

    ghost right = { right_view };
}

pub struct JoinPasses;

impl Join<View> for JoinPasses {
    ghost both = { both_views };

    ghost spent = { spent_view };
}
