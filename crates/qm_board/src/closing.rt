//! The rows of a board that is no longer shared.

ghost use Rattle.std.specs.Prelude.{◌≡◌, ◌<◌, ◌≤◌, ◌+◌, ◌*◌, ◌^◌, length, replicate, true, IfOk};
ghost use Rattle.std.specs.Mem.Slots.{slots_items, slots_len, IsFull};
ghost use Rattle.std.specs.Int.{div_ceil};
ghost use Rattle.qm_board.specs.inner.RowsOfWords.{AreRowsOfWords, IsRowOfWords};

use crate::pass::Pass;
use crate::row_board::RowBoard;
use atomic_table::Closed;
use qm_bits::BitRow;
use qm_lists::Items;
use std::alloc::{AllocError, Global};

impl RowBoard {
    ghost use Rattle.qm_board.specs.PassOf.{world_of, given_of, findings_of, IsPassOf};
    ghost use Rattle.qm_board.specs.Closed.{AreClosedRows};
    ghost use Rattle.qm_board.specs.Reached.{AreReachedRows};

    /// The rows, of which each has all leaves in sight of its portal, lies within each ceiling of it that the pass has found,
    /// and within its bound where the pass knows that it is finished. They are those of a state that comes from the rows given
    /// to `new` by a list of steps. After want of memory board and pass are gone.
    pub fn close(self, alloc: Global, pass: Pass) -> Result<Items<BitRow>, AllocError>
        requires { IsPassOf self pass }
        ensures rows { IfOk result (λ rows. AreClosedRows (world_of self) (findings_of pass) rows) }
        ensures reached { IfOk result (λ rows. AreReachedRows (world_of self) (given_of self) (findings_of pass) rows) }
    {
        let RowBoard {
            table,
            portals,
            width,
            leaves,
        } = self;
        let Pass { seat } = pass;
        let closed = table.close_with(seat);
        let rows = collect(alloc, &closed, portals, width, leaves);
        closed.free();
        Ok(Items::from_vec(rows?))
    }
}

/// The rows of these words.
fn collect(
    alloc: Global,
    closed: &Closed<(), Global>,
    portals: u64,
    width: u64,
    leaves: u64,
) -> Result<Vec<BitRow>, AllocError>
    requires full { IsFull closed.now.words }
    requires long { slots_len closed.now.words ≡ (1 + portals) + portals * width }
    requires counted { (1 + portals) + portals * width < 2 ^ 64 }
    requires wide { width ≡ div_ceil leaves 64 }
    ensures { IfOk result (λ rows. AreRowsOfWords (slots_items closed.now.words) portals width leaves portals rows.items) }
{
    let full = BitRow::full(alloc, leaves)?;
    let mut rows = Vec::new(alloc);
    for portal in 0..portals {
        let place = 1 + portals + portal * width;
        rows.push(read_row(alloc, closed, place, width, &full)?)?;
    }
    Ok(rows)
}

/// The row whose words begin at a place.
fn read_row(
    alloc: Global,
    closed: &Closed<(), Global>,
    place: u64,
    width: u64,
    full: &BitRow,
) -> Result<BitRow, AllocError>
    requires words_full { IsFull closed.now.words }
    requires within { place + width ≤ slots_len closed.now.words }
    requires counted { place + width < 2 ^ 64 }
    requires wide { width ≡ div_ceil (length full.now) 64 }
    requires full { full.now ≡ replicate (length full.now) true }
    ensures { IfOk result (λ row. IsRowOfWords (slots_items closed.now.words) place (length full.now) row) }
{
    let mut row = BitRow::with_len(alloc, full.len())?;
    row.copy_from(full);
    for k in 0..width {
        row.and_word(k, closed.word((place + k) as usize));
    }
    Ok(row)
}
