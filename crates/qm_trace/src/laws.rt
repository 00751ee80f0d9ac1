//! What holds of traces, whichever tree and segment.

ghost use Rattle.std.specs.Prelude.{◌≡◌, List};
ghost use Rattle.qm_space.specs.Point.{Point};
ghost use Rattle.qm_partition.specs.Tree.{Tree};
ghost use Rattle.qm_spans.specs.declared.span.Span.{Span};
ghost use Rattle.qm_spans.specs.SegmentTrace.{IsSegmentTrace};

/// A segment has one trace.
pub fn one_trace()
    ensures { (tree : Tree) (a b : Point) (one other : List Span) → IsSegmentTrace tree a b one → IsSegmentTrace tree a b other → one ≡ other }
{}
