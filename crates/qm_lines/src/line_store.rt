//! What lines leave for later ones.

ghost use Rattle.std.specs.Prelude.{◌<◌, length};

use crate::aiming::{Aim, Ranked, list_aims};
use crate::anchors::Anchors;
use crate::exits::Exits;
use crate::first_portal::FirstPortal;
use crate::kept_lines::{KeptLine, KeptLines};
use crate::line::Line;
use crate::trace::Trace;
use qm_portal::World;
use std::alloc::{AllocError, Global};

/// What was found by lines so far, from which later lines are aimed, and lines that are kept for later portals. Nothing is
/// promised of it, and nothing rests on it.
#[derive(Drop)]
pub struct LineStore {
    pub(crate) trace: Trace,
    pub(crate) exits: Exits,
    pub(crate) aims: Vec<Aim>,
    ranked: Vec<Ranked>,
    anchors: Anchors,
    // the anchors of the passage at which lines are aimed
    seconds: Vec<[i32; 3]>,
    shown: Vec<Option<Aim>>,
    kept: KeptLines,
    back: Vec<u64>,
}

impl LineStore {
    /// A store of no line.
    pub fn new(alloc: Global) -> LineStore {
        LineStore {
            trace: Trace::new(alloc),
            exits: Exits::new(alloc),
            aims: Vec::new(alloc),
            ranked: Vec::new(alloc),
            anchors: Anchors::new(alloc),
            seconds: Vec::new(alloc),
            shown: Vec::new(alloc),
            kept: KeptLines::new(alloc),
            back: Vec::new(alloc),
        }
    }

    /// Begins the turn of a portal of a world, with the lines that were kept for it: no leaf is shown yet.
    pub(crate) fn begin(
        &mut self,
        alloc: Global,
        world: &World,
        portal: u64,
    ) -> Result<Vec<KeptLine>, AllocError> {
        self.exits.make_room(world.leaves())?;
        self.anchors.make_room(world.portals() / 2)?;
        self.shown.clear();
        self.shown.resize(world.leaves() as usize, None)?;
        self.kept.take(alloc, world.portals(), portal)
    }

    /// Lists the lines from a first portal through another one.
    pub(crate) fn list_aims(&mut self, first: &FirstPortal, other: u64) -> Result<(), AllocError>
        requires { other < length first.now.world.now.portals }
    {
        let winding = &first.world.pane(other).winding;
        self.anchors.list(other / 2, winding, &mut self.seconds)?;
        let shown = match self.shown.get(first.world.from(other) as usize) {
            None => None,
            Some(shown) => *shown,
        };
        list_aims(
            first.anchors,
            &self.seconds,
            shown,
            &mut self.ranked,
            &mut self.aims,
        )
    }

    /// One of the lines that are listed.
    pub(crate) fn aim(&self, place: usize) -> Option<Aim> {
        self.aims.get(place).copied()
    }

    /// Notes the line that was followed last, for each leaf in which it was, and for which no line is noted yet.
    pub(crate) fn note_shown(&mut self, aim: &Aim) {
        for leaf in &self.trace.met {
            if let Some(shown) = self.shown.get_mut(*leaf as usize) {
                if shown.is_none() {
                    *shown = Some(*aim);
                }
            }
        }
    }

    /// Keeps the line that was followed last: for each portal through which it went, from where it shows its last leaf, and
    /// for each of the portals back, from where it shows the first.
    pub(crate) fn keep(&mut self, world: &World, line: &Line) -> Result<(), AllocError> {
        let (from, to) = line.ends();
        let last = KeptLine::between(&from, &to, self.trace.leaf);
        self.kept.keep(&self.trace.passed, &last)?;
        match self.trace.met.first() {
            None => Ok(()),
            Some(target) => {
                list_back(world, &self.trace.passed, &mut self.back)?;
                let back = KeptLine::between(&to, &from, *target);
                self.kept.keep(&self.back, &back)
            }
        }
    }
}

/// Lists the portals back through some portals.
fn list_back(world: &World, portals: &[u64], back: &mut Vec<u64>) -> Result<(), AllocError> {
    back.clear();
    for portal in portals {
        if *portal < world.portals() {
            back.push(world.back(*portal))?;
        }
    }
    Ok(())
}
