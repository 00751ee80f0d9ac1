//! Anchors that are kept. Nothing is promised of them.

use crate::aiming::anchors_into;
use crate::packing::{PackedPoint, packed};
use qm_wind::Winding;
use std::alloc::{AllocError, Global};

/// Where the anchors of a passage stand among all.
#[derive(Clone, Copy)]
struct Span {
    begin: u32,
    end: u32,
}

/// The anchors of the passages through which lines were aimed.
#[derive(Drop)]
pub(crate) struct Anchors {
    // by the numbers of passages; empty for a passage whose anchors are not made yet
    spans: Vec<Span>,
    points: Vec<PackedPoint>,
}

impl Anchors {
    /// Those of no passage.
    pub(crate) fn new(alloc: Global) -> Anchors {
        Anchors {
            spans: Vec::new(alloc),
            points: Vec::new(alloc),
        }
    }

    /// Makes room for the anchors of so many passages.
    pub(crate) fn make_room(&mut self, passages: u64) -> Result<(), AllocError> {
        self.spans
            .resize(passages as usize, Span { begin: 0, end: 0 })
    }

    /// Puts the anchors of a passage, which has a winding, in a list.
    pub(crate) fn list(
        &mut self,
        passage: u64,
        winding: &Winding,
        anchors: &mut Vec<[i32; 3]>,
    ) -> Result<(), AllocError> {
        anchors.clear();
        if let Some(span) = self.spans.get(passage as usize) {
            for place in span.begin..span.end {
                if let Some(point) = self.points.get(place as usize) {
                    anchors.push(point.point())?;
                }
            }
        }
        if anchors.is_empty() {
            anchors_into(winding, anchors)?;
            self.keep(passage, anchors)?;
        }
        Ok(())
    }

    /// Keeps the anchors of a passage.
    fn keep(&mut self, passage: u64, anchors: &[[i32; 3]]) -> Result<(), AllocError> {
        let begin = packed(self.points.len() as u64);
        for anchor in anchors {
            self.points.push(PackedPoint::of(anchor))?;
        }
        let end = packed(self.points.len() as u64);
        if let Some(span) = self.spans.get_mut(passage as usize) {
            *span = Span { begin, end };
        }
        Ok(())
    }
}
