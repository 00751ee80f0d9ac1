//! Edges with a corner beside them, and looks at the planes through them.

ghost use Rattle.std.specs.Prelude.{ℕ, ℤ, ◌≤◌, ◌<◌, ◌*◌, pos, ◌<ℤ◌, length, unsigned_abs};
ghost use Rattle.qm_space.specs.Bounds.{whole_normal_bound};
ghost use Rattle.qm_space.specs.Point.{Point, whole_point, AreCoordinates};
ghost use Rattle.qm_convex.specs.Winding.{Winding, IsConvex, corner_at};
ghost use Rattle.qm_geom.specs.declared.vector.Vector.{Vector};
ghost use Rattle.qm_geom.specs.Vectors.{HasSmallComponents};
ghost use Rattle.qm_narrow.specs.inner.Edge.{HasEdge, IsSpotIn};
ghost use Rattle.qm_narrow.specs.inner.Look.{IsOutlook};
ghost use Rattle.qm_narrow.specs.inner.Trace.{IsSpotOf};
ghost use Rattle.qm_narrow.specs.inner.Turn.{IsEdge, IsTurned, IsThrough, IsTurnSlack, IsPointSlack, IsSpread, LiesAround, LiesBetween, part_along, size_bound};

use crate::normal::normal_through;
use crate::outlook::Outlook;
use crate::places::next_place;
use crate::reach::Reach;
use crate::sizes::{dot, size_of};
use crate::spot::Spot;
use crate::traced::Traced;
use crate::turn::Turn;
use qm_geom::Vector;

/// The whole points nearest to both ends of an edge, and how far they are from one another across all axes together; and the
/// whole points near its first corner and near a corner beside it. The winding of the edge lies on one side of a plane through
/// it, so that these two corners tell as much of its reach along the plane's normal as all do.
#[derive(Clone, Copy)]
pub(crate) struct Edge {
    pub(crate) from: [i32; 3],
    pub(crate) to: [i32; 3],
    pub(crate) length: i64,
    pub(crate) first: Spot,
    pub(crate) beside: Spot,
}

impl Edge {
    /// The edge at a place, with the corner after it.
    pub(crate) fn at(edges: &Traced, i: usize) -> Edge
        requires { i < length edges.now.edges }
        ensures edge { IsEdge result }
        ensures of_winding { HasEdge edges.now i result }
    {
        let count = edges.len();
        let next = next_place(count, i);
        let after = next_place(count, next);
        let first = *edges.spot(i);
        let from = first.nearest;
        let to = edges.spot(next).nearest;
        Edge {
            from,
            to,
            length: size_of(&Vector::between(from, to)),
            first,
            beside: *edges.spot(after),
        }
    }

    /// The normal of the plane through the edge and near a corner.
    fn turn(&self, spot: &Spot) -> Turn
        requires edge { IsEdge self.now }
        requires spot { (p : Point) × IsSpotOf p spot.now }
        ensures small { HasSmallComponents result.normal whole_normal_bound }
        ensures turned { (p : Point) (n : Vector) → IsSpotOf p spot.now → IsThrough self.now p n → IsTurned self.now result n }
    {
        Turn {
            normal: normal_through(spot.nearest, self.from, self.to),
            loose: spot.loose,
        }
    }

    /// Between which distances a corner lies, counted from the edge.
    fn span(&self, turn: &Turn, spot: &Spot) -> Reach
        requires edge { IsEdge self.now }
        requires small { HasSmallComponents turn.now.normal whole_normal_bound }
        requires spot { (p : Point) × IsSpotOf p spot.now }
        ensures { (p : Point) (n : Vector) → pos 0 <ℤ p.w → IsSpotOf p spot.now → IsTurned self.now turn.now n → LiesBetween n (part_along n (whole_point self.now.from)) result p }
    {
        let step = Vector::between(self.from, spot.nearest);
        let value = dot(&turn.normal, &step);
        let turned = self.turn_slack(turn, spot);
        let loose = self.point_slack(turn, spot.loose);
        Reach::around(value, turned + loose)
    }

    /// Between which distances the edge's first corner lies, or the corner near which the planes go.
    fn own_span(&self, turn: &Turn, loose: bool) -> Reach
        requires edge { IsEdge self.now }
        requires small { HasSmallComponents turn.now.normal whole_normal_bound }
        ensures { (slack : ℤ) × IsPointSlack self.now turn.now loose slack × LiesAround (pos 0) slack result }
    {
        let slack = self.point_slack(turn, loose);
        Reach::around(0, slack)
    }

    /// By how much what a normal has along a corner may differ from what it has along a whole point near it.
    fn point_slack(&self, turn: &Turn, loose: bool) -> i64
        requires edge { IsEdge self.now }
        requires small { HasSmallComponents turn.now.normal whole_normal_bound }
        ensures exact { IsPointSlack self.now turn.now loose result }
        ensures small { unsigned_abs result ≤ 3 * size_bound }
    {
        if loose { self.spread(turn) } else { 0 }
    }

    /// The sum of a normal's components without their signs, however it is turned.
    fn spread(&self, turn: &Turn) -> i64
        requires edge { IsEdge self.now }
        requires small { HasSmallComponents turn.now.normal whole_normal_bound }
        ensures exact { IsSpread self.now turn.now result }
        ensures small { unsigned_abs result ≤ 3 * size_bound }
    {
        let size = size_of(&turn.normal);
        if turn.loose {
            size + (self.length + self.length)
        } else {
            size
        }
    }

    /// By how much a turn about the edge may change what a normal has along the step to a corner.
    fn turn_slack(&self, turn: &Turn, spot: &Spot) -> i64
        requires edge { IsEdge self.now }
        requires spot { AreCoordinates spot.now.nearest }
        ensures exact { IsTurnSlack self.now turn.now spot.now result }
        ensures small { unsigned_abs result ≤ size_bound }
    {
        if turn.loose {
            size_of(&normal_through(spot.nearest, self.from, self.to))
        } else {
            0
        }
    }

    /// Whether planes through the edge and near a corner may part the windings of both, the one behind and the other in front,
    /// and the other way round: by the edge's two corners, by the corner itself, and by two beside it.
    pub(crate) fn outlook(&self, own: &Spot, before: &Spot, after: &Spot) -> Outlook
        requires edge { IsEdge self.now }
        requires own { (p : Point) × IsSpotOf p own.now }
        requires before { (p : Point) × IsSpotOf p before.now }
        requires after { (p : Point) × IsSpotOf p after.now }
        requires beside { (p : Point) × IsSpotOf p self.now.beside }
        ensures { (e o : Winding) (i k : ℕ) (n : Vector) → HasEdge e i self.now → IsConvex o → k < length o.edges → IsSpotOf (corner_at o k) own.now → IsSpotIn o before.now → IsSpotIn o after.now → IsThrough self.now (corner_at o k) n → IsOutlook e o n result }
    {
        let turn = self.turn(own);
        let first = self.own_span(&turn, self.first.loose);
        let beside = self.span(&turn, &self.beside);
        let edge = first.and(&beside);
        let all = Outlook {
            ahead: true,
            back: true,
        };
        let own_span = self.own_span(&turn, own.loose);
        let at_own = all.past(&edge, &own_span);
        if at_own.is_none() {
            return at_own;
        }
        let before_span = self.span(&turn, before);
        let at_before = at_own.past(&edge, &before_span);
        if at_before.is_none() {
            return at_before;
        }
        let after_span = self.span(&turn, after);
        let at_after = at_before.past(&edge, &after_span);
        at_after
    }
}
