//! A finished row is published word by word, and then marked.

ghost use Rattle.std.specs.Prelude.{◌≡◌, ℕ, ◌<◌, length};
ghost use Rattle.qm_lists.specs.WorkList.{IsIn};
ghost use Rattle.qm_contacts.specs.NumberedLeaves.{numbered_leaves};
ghost use Rattle.qm_sight.specs.RowsOfWorld.{IsSoundAt};
ghost use Rattle.qm_shared_rows.specs.SharedRows.{HasAll, IsToBeKept};
ghost use Rattle.qm_shared_rows.specs.Steps.{KnowsBound};
ghost use Rattle.qm_board.specs.WorldSets.{IsInBoundAt, width_of, sets_of};
ghost use Rattle.qm_board.specs.Published.{IsPublished, HasWordsUpTo};

use crate::pass::Pass;
use crate::plays::{CutRowWord, MarkDone};
use crate::row_board::RowBoard;
use qm_bits::BitRow;

impl RowBoard {
    ghost use Rattle.qm_board.specs.PassOf.{world_of, given_of, findings_of, IsPassOf};
    ghost use Rattle.qm_board.specs.Reached.{IsReachedMark};
    ghost use Rattle.qm_shared_rows.specs.Findings.{ceiling, with_ceiling, with_known};

    /// Publishes the row of a portal: each word of the board's row loses what the row has not, in order, and then the portal is
    /// marked as finished. The mark is one of a state that comes from the rows given to `new` by a list of steps. It takes no
    /// memory.
    pub fn publish(&self, pass: &mut Pass, portal: u64, row: &BitRow)
        requires pass { IsPassOf self.now pass.old }
        requires portal_in_range { portal < length (world_of self.now).portals }
        requires wide { length row.now ≡ length (numbered_leaves (world_of self.now).tree) }
        requires sound { IsSoundAt (world_of self.now) portal row.now }
        requires bound { (n : ℕ) → IsIn row.now n → IsInBoundAt (world_of self.now) portal n }
        ensures pass { IsPassOf self.now pass.new }
        ensures published { IsPublished (world_of self.now) portal row.now (findings_of pass.old) (findings_of pass.new) }
        ensures reached { IsReachedMark (world_of self.now) (given_of self.now) portal (findings_of pass.new) }
    {
        self.narrow_row(pass, portal, row);
        self.finish(pass, portal);
    }

    /// Each word of the row of a portal loses what the row has not.
    fn narrow_row(&self, pass: &mut Pass, portal: u64, row: &BitRow)
        requires pass { IsPassOf self.now pass.old }
        requires portal_in_range { portal < length (world_of self.now).portals }
        requires wide { length row.now ≡ length (numbered_leaves (world_of self.now).tree) }
        requires sound { IsSoundAt (world_of self.now) portal row.now }
        ensures pass { IsPassOf self.now pass.new }
        ensures narrowed { HasWordsUpTo portal row.now (width_of (world_of self.now)) (findings_of pass.old) (findings_of pass.new) }
    {
        for k in 0..self.width {
            let word = row.word(k);
            self.narrow_word(pass, portal, k, word);
        }
    }

    /// A word of the row of a portal loses what a mask has not that has all leaves in sight.
    fn narrow_word(&self, pass: &mut Pass, portal: u64, k: u64, mask: u64)
        requires pass { IsPassOf self.now pass.old }
        requires portal_in_range { portal < length (world_of self.now).portals }
        requires word_in_range { k < width_of (world_of self.now) }
        requires sound { HasAll (IsToBeKept (sets_of (world_of self.now)) portal) k mask }
        ensures pass { IsPassOf self.now pass.new }
        ensures narrowed { findings_of pass.new ≡ with_ceiling (ceiling portal k mask) (findings_of pass.old) }
    {
        let place = self.row_place(portal, k);
        self.table
            .shared
            .fetch_and::<CutRowWord>(&mut pass.seat, place, mask);
    }

    /// Marks the row of a portal as finished.
    fn finish(&self, pass: &mut Pass, portal: u64)
        requires pass { IsPassOf self.now pass.old }
        requires portal_in_range { portal < length (world_of self.now).portals }
        requires bound { (k : ℕ) → k < width_of (world_of self.now) → KnowsBound (sets_of (world_of self.now)) (findings_of pass.old) portal k }
        ensures pass { IsPassOf self.now pass.new }
        ensures finished { findings_of pass.new ≡ with_known portal (findings_of pass.old) }
        ensures reached { IsReachedMark (world_of self.now) (given_of self.now) portal (findings_of pass.new) }
    {
        let place = (1 + portal) as usize;
        self.table
            .shared
            .fetch_or::<MarkDone>(&mut pass.seat, place, 1);
    }
}
