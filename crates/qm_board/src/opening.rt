//! A new board, with the words of given rows.

ghost use Rattle.std.specs.Prelude.{◌≡◌, length, All, IfOk};
ghost use Rattle.std.specs.Int.{div_ceil};
ghost use Rattle.qm_sight.specs.RowsOfWorld.{AreRowsOfWorld};
ghost use Rattle.qm_board.specs.inner.WordsOfRows.{AreFirstRows, HasPushedRow};

use crate::pass::Pass;
use crate::row_board::RowBoard;
use atomic_table::Table;
use qm_bits::BitRow;
use qm_lists::Items;
use qm_portal::World;
use std::alloc::{AllocError, Global};
use std::snapshot::Snapshot;

impl RowBoard {
    ghost use Rattle.qm_board.specs.Opened.{IsOpened};

    /// A board with these rows, on which nothing is drawn and no row is finished, and its first pass. The ceilings of that pass
    /// are the rows.
    pub fn new(
        alloc: Global,
        world: &World,
        rows: Items<BitRow>,
    ) -> Result<(RowBoard, Pass), AllocError>
        requires { AreRowsOfWorld world.now rows }
        ensures { IfOk result (λ made. IsOpened world.now rows made.0 made.1) }
    {
        let portals = world.portals();
        let leaves = world.leaves();
        let width = leaves.div_ceil(64);
        let words = flatten(alloc, portals, width, rows.as_slice())?;
        let key = (Snapshot::of(world), Snapshot::of(&words));
        let (table, seat) = Table::of_words(alloc, &words, &key)?;
        let board = RowBoard {
            table,
            portals,
            width,
            leaves,
        };
        Ok((board, Pass { seat }))
    }
}

/// The words at the start: a ticket and a mark for each portal, all of them 0, and then the words of the rows.
fn flatten(alloc: Global, portals: u64, width: u64, rows: &[BitRow]) -> Result<Vec<u64>, AllocError>
    requires one_each { length rows.now ≡ portals }
    requires wide { All (λ row. div_ceil (length row) 64 ≡ width) rows.now }
    ensures { IfOk result (λ words. AreFirstRows portals width rows.now portals words.items) }
{
    let mut words = vec![in alloc; 0; portals as usize]?;
    words.push(0)?;
    for portal in 0..portals {
        push_row(&mut words, width, &rows[portal as usize])?;
    }
    Ok(words)
}

/// Appends the words of a row.
fn push_row(words: &mut Vec<u64>, width: u64, row: &BitRow) -> Result<(), AllocError>
    requires { div_ceil (length row.now) 64 ≡ width }
    ensures { IfOk result (λ _. HasPushedRow row.now width words.old.items words.new.items) }
{
    for k in 0..width {
        words.push(row.word(k))?;
    }
    Ok(())
}
