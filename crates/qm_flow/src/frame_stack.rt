//! The frames of a walk, and spare ones for those to come.

ghost use Rattle.std.specs.Prelude.{◌≡◌, ◌<◌, Bool, List, [], ◌∷◌, ◌++◌, length, IfOk, OnOk, All};
ghost use Rattle.qm_contacts.specs.NumberedLeaves.{numbered_leaves};
ghost use Rattle.qm_contacts.specs.OwnPortals.{HasOwnPortals};
ghost use Rattle.qm_chains.specs.inner.Frame.{Frame};
ghost use Rattle.qm_chains.specs.inner.Walk.{AreWide};
ghost use Rattle.qm_flow.specs.inner.FreshStack.{IsFreshStack};
ghost use Rattle.qm_flow.specs.inner.Spares.{AreSparesWide};

use crate::frame::Frame;
use crate::room::{Room, Scratch};
use qm_bits::BitRow;
use qm_narrow::StepBuffers;
use qm_portal::World;
use std::alloc::{AllocError, Global};
use std::mem;

/// The frames of a walk, and what is used again: frames that have ended, and room for tries.
pub(crate) struct FrameStack<'a> {
    pub(crate) frames: Vec<Frame<'a>>,
    pub(crate) ended: Vec<Frame<'a>>,
    pub(crate) room: Room<'a>,
}

// Written out, so that a function that owns one calls this where it ends: a derived drop would be proved anew at each exit.
impl<'a> Drop for FrameStack<'a> {
    fn drop(self) {
        let FrameStack {
            frames: _,
            ended: _,
            room: _,
        } = self;
    }
}

impl<'a> FrameStack<'a> {
    /// No frame yet. The next one is that of the chain with one portal.
    pub(crate) fn of(
        alloc: Global,
        world: &'a World,
        portal: u64,
    ) -> Result<FrameStack<'a>, AllocError>
        requires portal { portal < length world.now.portals }
        requires own_portals { HasOwnPortals world.now }
        ensures fresh { IfOk result (IsFreshStack world.now portal) }
    {
        let cone = BitRow::with_len(alloc, world.leaves())?;
        let left = BitRow::with_len(alloc, world.leaves())?;
        let next = Frame::first(alloc, world, portal)?;
        let scratch = Scratch {
            steps: StepBuffers::new(alloc),
            cone,
            left,
            due: Vec::new(alloc),
            words: Vec::new(alloc),
        };
        Ok(FrameStack {
            frames: Vec::new(alloc),
            ended: Vec::new(alloc),
            room: Room { next, scratch },
        })
    }

    /// The next frame becomes the last one. One that has ended takes its place, or a new one.
    pub(crate) fn push_next(
        &mut self,
        alloc: Global,
        world: &'a World,
        portal: u64,
    ) -> Result<(), AllocError>
        requires portal { portal < length world.now.portals }
        requires own_portals { HasOwnPortals world.now }
        requires spares { AreSparesWide world.now self.old }
        ensures frames { OnOk result (self.new.frames.items ≡ self.old.frames.items ++ self.old.room.next ∷ []) }
        ensures spares { OnOk result (AreSparesWide world.now self.new) }
    {
        let spare = spare_frame(alloc, world, portal, &mut self.ended)?;
        let next = mem::replace(&mut self.room.next, spare);
        self.frames.push(next)?;
        Ok(())
    }

    /// The last frame has ended, and is to be used again.
    pub(crate) fn end_last(&mut self) -> Result<(), AllocError>
        ensures frames { OnOk result ((below : List Frame) (last : Frame) → self.old.frames.items ≡ below ++ last ∷ [] →
            (self.new.frames.items ≡ below) × (self.new.ended.items ≡ self.old.ended.items ++ last ∷ [])) }
        ensures room { self.new.room ≡ self.old.room }
    {
        match self.frames.pop() {
            None => Ok(()),
            Some(frame) => {
                self.ended.push(frame)?;
                Ok(())
            }
        }
    }
}

/// A frame to be filled: one that has ended, or a new one, which until then is that of the chain with a portal; any will do.
fn spare_frame<'a>(
    alloc: Global,
    world: &'a World,
    portal: u64,
    ended: &mut Vec<Frame<'a>>,
) -> Result<Frame<'a>, AllocError>
    requires portal { portal < length world.now.portals }
    requires own_portals { HasOwnPortals world.now }
    ensures wide { IfOk result (λ frame. (cone : List Bool) → length cone ≡ length (numbered_leaves world.now.tree) → All (λ f. AreWide world.now f cone) ended.old.items →
        AreWide world.now frame cone × All (λ f. AreWide world.now f cone) ended.new.items) }
{
    match ended.pop() {
        Some(frame) => Ok(frame),
        None => Frame::first(alloc, world, portal),
    }
}
