ghost use Rattle.std.specs.Prelude.{◌≡◌, ◌+◌, ◌*◌, ◌<◌, length};
ghost use Rattle.qm_contacts.specs.NumberedLeaves.{numbered_leaves};
ghost use Rattle.qm_board.specs.inner.Sizes.{IsSized};

use crate::pass::Pass;
use crate::plays::{DrawNumber, LoadDoneWord, LoadRowWord};
use crate::rule::{Key, Rule};
use crate::view::View;
use atomic_table::Table;
use std::alloc::Global;

/// Rows of the portals of a world, which several passes read and narrow at once. Each portal has a row and a mark that says
/// whether its row is finished, and there are numbers to be drawn.
#[derive(Drop)]
pub struct RowBoard {
    pub(crate) table: Table<(), View, Key, Rule, Global>,
    pub(crate) portals: u64,
    pub(crate) width: u64,
    pub(crate) leaves: u64,
    ghost sized: { IsSized table.shared.key.0.value table.shared.table_id.words portals width leaves },
    ghost no_slots: { table.shared.table_id.slots ≡ 0 },
}

impl RowBoard {
    ghost use Rattle.qm_board.specs.PassOf.{world_of, given_of, findings_of, IsPassOf};
    ghost use Rattle.qm_shared_rows.specs.Findings.{ceiling, with_ceiling, with_drawn};
    ghost use Rattle.qm_board.specs.Reached.{IsReachedWord};
    ghost use Rattle.qm_board.specs.ReadWords.{IsReadWord, IsFoundDone};

    /// Where the word `k` of the row of a portal lies.
    pub(crate) fn row_place(&self, portal: u64, k: u64) -> usize
        requires portal_in_range { portal < self.now.portals }
        requires word_in_range { k < self.now.width }
        ensures value { result ≡ ((1 + self.now.portals) + portal * self.now.width) + k }
        ensures within { result < self.now.table.shared.table_id.words }
    {
        (1 + self.portals + portal * self.width + k) as usize
    }

    /// Draws a number: the ticket before this step, which adds one and wraps. It takes no memory.
    pub fn draw(&self, pass: &mut Pass) -> u64
        requires { IsPassOf self.now pass.old }
        ensures pass { IsPassOf self.now pass.new }
        ensures drawn { findings_of pass.new ≡ with_drawn result (findings_of pass.old) }
    {
        self.table
            .shared
            .fetch_add::<DrawNumber>(&mut pass.seat, 0, 1)
    }

    /// Word `k` of the row of a portal, as it is at this step. It lacks no leaf in sight of the portal, and lies within each
    /// ceiling of its place that the pass has found. This pass reads it in a state that comes from the rows given to `new` by a
    /// list of steps. It takes no memory.
    pub fn word(&self, pass: &mut Pass, portal: u64, k: u64) -> u64
        requires pass { IsPassOf self.now pass.old }
        requires portal_in_range { portal < length (world_of self.now).portals }
        requires word_in_range { 64 * k < length (numbered_leaves (world_of self.now).tree) }
        ensures pass { IsPassOf self.now pass.new }
        ensures ceiling { findings_of pass.new ≡ with_ceiling (ceiling portal k result) (findings_of pass.old) }
        ensures read { IsReadWord (world_of self.now) (findings_of pass.old) portal k result }
        ensures reached { IsReachedWord (world_of self.now) (given_of self.now) (findings_of pass.old) portal k result }
    {
        let place = self.row_place(portal, k);
        self.table.shared.load::<LoadRowWord>(&mut pass.seat, place)
    }

    /// Whether the row of a portal is marked as finished. False is answered only where it was not at this step, and true
    /// wherever the pass knows that it is. It takes no memory.
    pub fn is_done(&self, pass: &mut Pass, portal: u64) -> bool
        requires pass { IsPassOf self.now pass.old }
        requires portal_in_range { portal < length (world_of self.now).portals }
        ensures pass { IsPassOf self.now pass.new }
        ensures found { IsFoundDone portal result (findings_of pass.old) (findings_of pass.new) }
    {
        let place = (1 + portal) as usize;
        let word = self
            .table
            .shared
            .load::<LoadDoneWord>(&mut pass.seat, place);
        word == 1
    }
}
