//! Where a walk of chains stands.

ghost use Rattle.std.specs.Prelude.{◌≡◌, ◌↔◌, ◌<◌, [], true, length, MatchOption, IfOk};
ghost use Rattle.qm_contacts.specs.OwnPortals.{HasOwnPortals};
ghost use Rattle.qm_chains.specs.inner.Frame.{put_back, MayEnter};
ghost use Rattle.qm_flow.specs.inner.FirstFrame.{IsFirstFrame};

use qm_bits::BitRow;
use qm_narrow::ChainState;
use qm_portal::World;
use std::alloc::{AllocError, Global};
use std::marker::Model;

/// The end of a chain: the state to which it has led, the portals by which it is still to go on, the leaves in which it
/// has been, and the leaves that it may still show.
pub(crate) struct Frame<'a> {
    pub(crate) state: ChainState,
    pub(crate) untried: &'a [u64],
    pub(crate) met: BitRow,
    pub(crate) mask: BitRow,
}

impl<'a> Model for Frame<'a> {
    ghost use Rattle.qm_chains.specs.inner.Frame.{Frame};

    ghost Value = { Frame };

    ghost view = { λ f. record { state = f.state; untried = f.untried.now; met = f.met; mask = f.mask } };
}

// Written out, so that a function that owns one calls this where it ends: a derived drop would be proved anew at each exit.
impl<'a> Drop for Frame<'a> {
    fn drop(self) {
        let Frame {
            state: _,
            untried: _,
            met: _,
            mask: _,
        } = self;
    }
}

impl<'a> Frame<'a> {
    /// The frame of the chain with one portal.
    pub(crate) fn first(
        alloc: Global,
        world: &'a World,
        portal: u64,
    ) -> Result<Frame<'a>, AllocError>
        requires portal { portal < length world.now.portals }
        requires own_portals { HasOwnPortals world.now }
        ensures { IfOk result (IsFirstFrame world.now portal) }
    {
        let entered = world.to(portal);
        let mask = BitRow::with_len(alloc, world.leaves())?;
        let mut met = BitRow::with_len(alloc, world.leaves())?;
        met.set(world.from(portal));
        met.set(entered);
        let state = ChainState::start(alloc, world.pane(portal))?;
        Ok(Frame {
            state,
            untried: world.leaving(entered),
            met,
            mask,
        })
    }

    /// The state to which the chain has led.
    pub(crate) fn state(&self) -> &ChainState
        ensures { result.now ≡ self.now.state }
    {
        &self.state
    }

    /// Whether the chain may enter a leaf: it may still show it, and was not in it before.
    pub(crate) fn may_enter(&self, leaf: u64) -> bool
        requires met { leaf < length self.now.met }
        requires mask { leaf < length self.now.mask }
        ensures { (result ≡ true) ↔ MayEnter self.now leaf }
    {
        self.mask.get(leaf) && !self.met.get(leaf)
    }

    /// Takes off the portal that is to be tried next.
    pub(crate) fn take_next(&mut self) -> Option<u64>
        ensures { MatchOption result ((self.old.untried ≡ []) × (self.new ≡ self.old)) (λ number. self.old ≡ put_back number self.new) }
    {
        match self.untried.split_first() {
            None => None,
            Some((number, untried)) => {
                self.untried = untried;
                Some(*number)
            }
        }
    }
}
