//! How far a line was followed.

ghost use Rattle.std.specs.Prelude.{ℕ, ◌≡◌, ◌<◌, [], length, Contains, OnOk, IsTrue, ◌↔◌};
ghost use Rattle.qm_contacts.specs.NumberedLeaves.{numbered_leaves};
ghost use Rattle.qm_contacts.specs.OwnPortals.{HasOwnPortals};
ghost use Rattle.qm_segments.specs.Segment.{Segment};
ghost use Rattle.qm_lines.specs.inner.Crossing.{CrossesAt};
ghost use Rattle.qm_lines.specs.inner.Trace.{IsTrace, HasEntered, AreInRange};

use crate::crossing::Crossing;
use qm_portal::World;
use std::alloc::{AllocError, Global};

/// The portals that a line went through, from the first to the last, the leaves in which it was, the one in which it is, and
/// where it went through the last portal.
#[derive(Drop)]
pub(crate) struct Trace {
    pub(crate) passed: Vec<u64>,
    pub(crate) met: Vec<u64>,
    pub(crate) leaf: u64,
    pub(crate) last: Crossing,
}

impl Trace {
    /// A trace of no line.
    pub(crate) fn new(alloc: Global) -> Trace {
        Trace {
            passed: Vec::new(alloc),
            met: Vec::new(alloc),
            leaf: 0,
            last: Crossing {
                at_begin: -1,
                at_end: 1,
            },
        }
    }

    /// Forgets its line.
    pub(crate) fn clear(&mut self)
        ensures passed { self.new.passed.items ≡ [] }
        ensures met { self.new.met.items ≡ [] }
    {
        self.passed.clear();
        self.met.clear();
    }

    /// Begins anew, with a line that goes through a portal.
    pub(crate) fn begin(
        &mut self,
        world: &World,
        portal: u64,
        crossing: Crossing,
    ) -> Result<(), AllocError>
        requires portal { portal < length world.now.portals }
        requires own_portals { HasOwnPortals world.now }
        ensures trace { OnOk result ((s : Segment) → CrossesAt world.now.portals portal s crossing → IsTrace world.now portal s self.new) }
        ensures range { OnOk result (AreInRange world.now self.new) }
    {
        self.passed.clear();
        self.met.clear();
        self.met.push(world.from(portal))?;
        self.enter(world, portal, crossing)
    }

    /// Goes on through a portal.
    pub(crate) fn enter(
        &mut self,
        world: &World,
        portal: u64,
        crossing: Crossing,
    ) -> Result<(), AllocError>
        requires { portal < length world.now.portals }
        ensures { OnOk result (HasEntered world.now portal crossing self.old self.new) }
    {
        let to = world.to(portal);
        self.passed.push(portal)?;
        self.met.push(to)?;
        self.leaf = to;
        self.last = crossing;
        Ok(())
    }

    /// Whether the line was in a leaf.
    pub(crate) fn has_met(&self, leaf: u64) -> bool
        ensures { IsTrue result ↔ Contains self.now.met.items leaf }
    {
        self.met.contains(&leaf)
    }
}
