//! Lines that are kept for the turns of later portals.

use crate::aiming::inside;
use crate::line::Line;
use crate::packing::{PackedPoint, packed};
use std::alloc::{AllocError, Global};
use std::mem;

/// For how many lines there are places in all stores, if each portal had as many as may be kept for it.
const PLACES: u64 = 600_000;

/// How many lines are kept for a portal at most, however few portals there are, and how many in any case.
const MOST: u64 = 100;

const LEAST: u64 = 16;

/// A line by its ends, and the leaf that it shows from the portal for which it is kept.
#[derive(Clone, Copy)]
pub(crate) struct KeptLine {
    from: PackedPoint,
    to: PackedPoint,
    target: u32,
}

impl KeptLine {
    /// A line between two points that shows a leaf.
    pub(crate) fn between(from: &[i32; 3], to: &[i32; 3], target: u64) -> KeptLine {
        KeptLine {
            from: PackedPoint::of(from),
            to: PackedPoint::of(to),
            target: packed(target),
        }
    }

    /// The line.
    pub(crate) fn line(&self) -> Line {
        Line::between(inside(&self.from.point()), inside(&self.to.point()))
    }

    /// The point where it ends.
    pub(crate) fn end(&self) -> [i32; 3] {
        self.to.point()
    }

    /// The leaf that it shows.
    pub(crate) fn target(&self) -> u64 {
        u64::from(self.target)
    }
}

/// The lines that are kept for each portal. Nothing is promised of them: each is followed anew.
#[derive(Drop)]
pub(crate) struct KeptLines {
    of_portals: Vec<Vec<KeptLine>>,
    most: u64,
    // how many turns it had, and how many portals had their turn in this store or another
    turns: u64,
    over: u64,
}

impl KeptLines {
    /// No line.
    pub(crate) fn new(alloc: Global) -> KeptLines {
        KeptLines {
            of_portals: Vec::new(alloc),
            most: 0,
            turns: 0,
            over: 0,
        }
    }

    /// The lines that are kept for one of so many portals, whose turn begins. Their places, and those of the portals before it,
    /// are given back.
    pub(crate) fn take(
        &mut self,
        alloc: Global,
        portals: u64,
        portal: u64,
    ) -> Result<Vec<KeptLine>, AllocError> {
        for _ in self.of_portals.len() as u64..portals {
            self.of_portals.push(Vec::new(alloc))?;
        }
        let mut taken = Vec::new(alloc);
        for earlier in self.over..portal.saturating_add(1) {
            if let Some(lines) = self.of_portals.get_mut(earlier as usize) {
                taken = mem::replace(lines, Vec::new(alloc));
            }
        }
        self.over = self.over.max(portal.saturating_add(1));
        self.turns = self.turns.saturating_add(1);
        self.most = most_for(self.turns, self.over, portals);
        Ok(taken)
    }

    /// Keeps a line for each of some portals whose turn is still to come, where none is kept for its target.
    pub(crate) fn keep(&mut self, portals: &[u64], line: &KeptLine) -> Result<(), AllocError> {
        let most = self.most;
        for portal in portals {
            if *portal < self.over {
                continue;
            }
            if let Some(lines) = self.of_portals.get_mut(*portal as usize) {
                if is_wanted(lines, most, line.target) {
                    lines.push(*line)?;
                }
            }
        }
        Ok(())
    }
}

/// How many lines a store keeps for each of so many portals at most, if it had so many of the turns that are over. The stores of
/// several workers share the places as they share the turns.
fn most_for(turns: u64, over: u64, portals: u64) -> u64 {
    let share = PLACES.saturating_mul(turns).checked_div(over);
    match share.unwrap_or(PLACES).checked_div(portals) {
        None => LEAST,
        Some(most) => most.max(LEAST).min(MOST),
    }
}

/// Whether there is room for one more line, and none for its target yet.
fn is_wanted(lines: &[KeptLine], most: u64, target: u32) -> bool {
    (lines.len() as u64) < most && lines.iter().all(|kept| kept.target != target)
}
