ghost use Rattle.std.specs.Prelude.{◌≡◌, ◌≤◌, ◌↔◌, All, IfOk, IfErr, IsTrue, unsigned_abs};
ghost use Rattle.qm_space.specs.Bounds.{world_extent};
ghost use Rattle.qm_space.specs.InsideBound.{IsInsideBound};
ghost use Rattle.qm_partition.specs.Counting.{leaf_count, node_planes};
ghost use Rattle.qm_spans.specs.Spans.{AreLeavesThere, TakesFirst};
ghost use Rattle.qm_spans.specs.SegmentTrace.{IsSegmentTrace, FitsTraces, MeetsCube};
ghost use Rattle.qm_spans.specs.ComputedSpans.{trace_of};
ghost use Rattle.qm_trace.specs.declared.trace_fault.TraceFault.TheVariants.{OutsideCube};

use crate::cube::are_inside_bound;
use crate::near::are_near;
use crate::parting::lowest_place;
use crate::trace_fault::TraceFault;
use crate::walk::leaf_after;
use qm_geom::Point;
use qm_spans::{Parting, Span};
use qm_tree::Tree;
use std::marker::Model;

/// A segment on its way through a tree. Contracts see it as the list of the spans that are still to come.
#[derive(Drop)]
pub struct Tracer<'a> {
    tree: &'a Tree,
    from: Point,
    to: Point,
    at: Parting,
}

impl<'a> Model for Tracer<'a> {
    ghost use Rattle.std.specs.Prelude.{List};
    ghost use Rattle.qm_spans.specs.declared.span.Span.{Span};
    ghost use Rattle.qm_spans.specs.SegmentTrace.{CanTrace};
    ghost use Rattle.qm_spans.specs.ComputedSpans.{spans_from};

    ghost Value = { List Span };

    ghost view = { λ t. spans_from t.tree.now t.from t.to t.at };

    ghost invariant = { λ t. CanTrace t.tree.now t.from t.to };
}

impl<'a> Tracer<'a> {
    /// The trace of the segment from one point to another, through a tree in the cube of a bound. `OutsideCube` exactly where an
    /// end does not lie strictly inside the cube. It takes no memory.
    pub fn over(
        tree: &'a Tree,
        bound: u32,
        from: Point,
        to: Point,
    ) -> Result<Tracer<'a>, TraceFault>
        requires bound { bound ≤ world_extent }
        requires from_weight { unsigned_abs from.w ≤ 1000000 }
        requires to_weight { unsigned_abs to.w ≤ 1000000 }
        requires fits { FitsTraces tree.now }
        ensures value { IfOk result (λ tracer. tracer ≡ trace_of tree.now from to) }
        ensures trace { IfOk result (λ tracer. IsSegmentTrace tree.now from to tracer) }
        ensures leaves { IfOk result (λ tracer. AreLeavesThere (leaf_count tree.now.shape) tracer) }
        ensures inside { IfOk result (λ tracer. IsInsideBound bound from × IsInsideBound bound to) }
        ensures outside { IfErr result (λ fault. (fault ≡ OutsideCube) × (IsInsideBound bound from → IsInsideBound bound to → ⊥)) }
    {
        if !are_inside_bound(bound, &from, &to) {
            return Err(TraceFault::OutsideCube);
        }
        let at = Parting {
            before: 0,
            behind: 1,
        };
        Ok(Tracer { tree, from, to, at })
    }

    /// The next span, and `None` after the last. It takes no memory.
    pub fn next(&mut self) -> Option<Span>
        ensures { TakesFirst self.old result self.new }
    {
        if self.at.behind == 0 {
            return None;
        }
        let (leaf, leave) = leaf_after(self.tree, &self.from, &self.to, self.at);
        self.at = leave;
        Some(Span {
            leaf,
            to: lowest_place(leave),
        })
    }

    /// Whether segments can be traced through a tree: no plane of a node is too far. Where each has a point inside the world's
    /// cube, they can. It takes no memory.
    pub fn fits(tree: &Tree) -> bool
        ensures value { IsTrue result ↔ FitsTraces tree.now }
        ensures near { All (MeetsCube tree.now) (node_planes tree.now.shape) → IsTrue result }
    {
        are_near(tree)
    }
}
