ghost use Rattle.std.specs.Prelude.{◌≡◌, ◌<◌, length, slice_set};
ghost use Rattle.qm_contacts.specs.NumberedLeaves.{numbered_leaves};
ghost use Rattle.qm_sight.specs.WordInSight.{ceiling_of};
ghost use Rattle.qm_sight.specs.RowsOfWorld.{AreRowsOfWorld, IsSoundAt};

use crate::row_source::RowSource;
use qm_bits::BitRow;
use qm_lists::Items;
use qm_portal::World;
use std::marker::Model;

/// The plain source: it answers the words of rows, which are its ceilings. It goes on from an equal state alone.
#[derive(Drop)]
pub struct Rows<'a> {
    world: &'a World,
    rows: Vec<BitRow>,
}

impl<'a> Model for Rows<'a> {
    ghost use Rattle.std.specs.Coded.{codes};
    ghost use Rattle.qm_partition.specs.inner.TreeCode.{tree_code};
    ghost use Rattle.qm_sight.specs.RowsOfWorld.{RowsOfWorld, AreRowsOfWorld};

    ghost Value = { RowsOfWorld };

    ghost coded = { Prim.hlevel (codes, tree_code) };

    ghost view = { λ r. record { world = r.world.now; rows = r.rows.items } };

    ghost invariant = { λ r. AreRowsOfWorld r.world.now r.rows.items };
}

impl<'a> Rows<'a> {
    /// Rows of the portals of a world. It takes no memory.
    pub fn over(world: &'a World, rows: Items<BitRow>) -> Rows<'a>
        requires { AreRowsOfWorld world.now rows }
        ensures world { result.world ≡ world.now }
        ensures rows { result.rows ≡ rows }
    {
        let rows = rows.into_vec();
        Rows { world, rows }
    }

    /// Puts another sound row in the place of a portal's. The rows of all other portals stay. It takes no memory.
    pub fn replace(&mut self, portal: u64, row: BitRow)
        requires portal_in_range { portal < length self.old.world.portals }
        requires wide { length row ≡ length (numbered_leaves self.old.world.tree) }
        requires sound { IsSoundAt self.old.world portal row }
        ensures world { self.new.world ≡ self.old.world }
        ensures rows { self.new.rows ≡ slice_set self.old.rows portal row }
    {
        self.rows[portal as usize] = row;
    }

    /// The rows, given back as they are now. It takes no memory.
    pub fn into_rows(self) -> Items<BitRow>
        ensures rows { result ≡ self.entry.rows }
        ensures are { AreRowsOfWorld self.entry.world result }
    {
        let Rows { rows, .. } = self;
        Items::from_vec(rows)
    }

    /// The row of a portal.
    fn row(&self, portal: u64) -> &BitRow
        requires { portal < length self.now.world.portals }
        ensures value { result.now ≡ ceiling_of self.now.rows portal }
        ensures wide { length result.now ≡ length (numbered_leaves self.now.world.tree) }
        ensures sound { IsSoundAt self.now.world portal result.now }
    {
        &self.rows[portal as usize]
    }
}

impl<'a> RowSource for Rows<'a> {
    ghost use Rattle.std.specs.Prelude.{◌≡◌};
    ghost use Rattle.qm_sight.specs.inner.PlainRows.{itself, in_turn, one_world, none_narrower};

    ghost world = { λ r. r.world };

    ghost ceilings = { λ r. r.rows };

    ghost goes_on = { λ a b. b ≡ a };

    fn word(&mut self, portal: u64, k: u64) -> u64 {
        let row = self.row(portal);
        row.word(k)
    }

    ghost goes_on_itself = { itself };

    ghost goes_on_in_turn = { in_turn };

    ghost same_world = { one_world };

    ghost narrower = { none_narrower };
}
