//! What a flow goes by.

ghost use Rattle.std.specs.Prelude.{◌≡◌, ◌<◌, length, IfOk};
ghost use Rattle.qm_contacts.specs.OwnPortals.{HasOwnPortals};
ghost use Rattle.qm_flow.specs.inner.BegunPairs.{ArePairsBegun};
ghost use Rattle.qm_flow.specs.inner.FirstMask.{IsFirstMask};
ghost use Rattle.qm_flow.specs.inner.FlowPairs.{pairs_of};

use crate::frame::Frame;
use crate::masks::narrow;
use crate::own_rows::OwnRows;
use qm_bits::BitRow;
use qm_portal::World;
use qm_sight::RowSource;
use std::alloc::{AllocError, Global};

/// What a flow goes by: the memory that it may ask for, its world, its first portal, the frame of the chain with that alone, the
/// leaves that may be in sight of it, and the rows of the flow's own: that of a portal is the row of its pair with the first. It
/// is made when the portal passes the cheap tests of a try for the second time, since it would not pay for one that passes them
/// once; where nothing can be seen via the portal, it is barred before the first.
pub(crate) struct Flow<'a> {
    pub(crate) alloc: Global,
    pub(crate) world: &'a World,
    pub(crate) first: u64,
    // Its state alone is read; a frame has a drop of its own.
    pub(crate) start: Frame<'a>,
    pub(crate) seen: BitRow,
    pub(crate) own: OwnRows,
}

// Written out, so that a function that owns one calls this where it ends: a derived drop would be proved anew at each exit.
impl<'a> Drop for Flow<'a> {
    fn drop(self) {
        let Flow {
            alloc: _,
            world: _,
            first: _,
            start: _,
            seen: _,
            own: _,
        } = self;
    }
}

impl<'a> Flow<'a> {
    /// What a flow from a portal goes by when it begins: the leaves that may be in sight of the portal, as the source answers its
    /// row, and no row of a pair.
    pub(crate) fn of<S: RowSource>(
        alloc: Global,
        world: &'a World,
        source: &mut S,
        first: u64,
    ) -> Result<Flow<'a>, AllocError>
        requires first { first < length world.now.portals }
        requires own_portals { HasOwnPortals world.now }
        requires same_world { S.world source.old ≡ world.now }
        ensures world { IfOk result (λ flow. flow.world.now ≡ world.now) }
        ensures begun { IfOk result (λ flow. ArePairsBegun world.now first (pairs_of flow)) }
        ensures seen { IfOk result (λ flow. IsFirstMask world.now (S.ceilings source.old) first flow.seen) }
        ensures on { S.goes_on source.old source.new }
    {
        let own = OwnRows::none(alloc, world.portals())?;
        let mut seen = BitRow::full(alloc, world.leaves())?;
        narrow(&own, source, first, &mut seen);
        let start = Frame::first(alloc, world, first)?;
        Ok(Flow {
            alloc,
            world,
            first,
            start,
            seen,
            own,
        })
    }
}
