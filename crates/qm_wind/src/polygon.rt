ghost use Rattle.std.specs.Prelude.{◌≡◌, ◌<◌, ◌≤◌, ◌↔◌, length, IsTrue, IsOk, IfOk, OnOk, OnErr, MatchBool};
ghost use Rattle.qm_convex.specs.Winding.{edge_after, corner_at, IsConvex};
ghost use Rattle.qm_convex.specs.inner.Parallelogram.{parallelogram};
ghost use Rattle.qm_convex.specs.Cut.{IsPartInFront};
ghost use Rattle.qm_convex.specs.Section.{HasSameNormal};
ghost use Rattle.qm_convex.specs.inner.FrontRun.{IsFrontRun, cut};
ghost use Rattle.qm_convex.specs.Sides.{HasCornerInFront, HasCornerBehind, HasNoneInFront};
ghost use Rattle.qm_wind.specs.inner.Surveyed.{IsRun, IsSurvey};
ghost use Rattle.qm_wind.specs.inner.Finding.{HasCornersAcross};
ghost use Rattle.qm_wind.specs.inner.Before.{IsNearer, IsBefore};

use crate::any_corner::is_any_in_front;
use crate::axial_cell::Opposites;
use crate::circle::{add_arc, keep_arc, next_place, steps_between};
use crate::survey::{Run, Survey};
use qm_geom::{Corner, Plane};
use smallvec::SmallVec;
use std::alloc::{AllocError, Global};
use std::marker::Model;

/// A convex polygon on a plane, wherever it lies: one plane for each edge, with the polygon on its
/// front.
#[derive(Drop)]
pub(crate) struct Polygon {
    plane: Plane,
    edges: SmallVec<Plane, 8>,
}

impl Model for Polygon {
    ghost use Rattle.qm_convex.specs.Winding.{Winding, IsConvex};

    ghost Value = { Winding };

    ghost view = { λ w. record { plane = w.plane; edges = w.edges.items } };

    ghost invariant = { λ w. IsConvex (record { plane = w.plane; edges = w.edges.items }) };
}

impl Polygon {
    /// How many corners it has.
    pub(crate) fn len(&self) -> usize
        ensures { result ≡ length self.now.edges }
    {
        self.edges.len()
    }

    /// The corner at a place.
    pub(crate) fn corner(&self, i: usize) -> Corner
        requires { i < length self.now.edges }
        ensures { result ≡ corner_at self.now i }
    {
        corner(&self.plane, self.edges.as_slice(), i)
    }

    /// The plane of the edge from the corner at a place to the next one.
    pub(crate) fn edge(&self, i: usize) -> Plane
        requires { i < length self.now.edges }
        ensures { result ≡ edge_after self.now i }
    {
        let edges = self.edges.as_slice();
        let next = next_place(edges.len(), i);
        edges[next]
    }

    /// The plane on which it lies.
    pub(crate) fn plane(&self) -> Plane
        ensures { result ≡ self.now.plane }
    {
        self.plane
    }

    /// The planes of its edges.
    pub(crate) fn edges(&self) -> &[Plane]
        ensures { result.now ≡ self.now.edges }
    {
        self.edges.as_slice()
    }

    /// The same polygon once more.
    pub(crate) fn copy(&self) -> Result<Polygon, AllocError>
        ensures same { IfOk result (λ w. w ≡ self.now) }
        ensures inline { length self.now.edges ≤ 8 → IsOk result }
    {
        let mut edges = SmallVec::new(*self.edges.allocator());
        edges.extend_from_slice(self.edges.as_slice())?;
        Ok(Polygon {
            plane: self.plane,
            edges,
        })
    }

    /// On which sides of a plane its corners lie.
    pub(crate) fn survey(&self, plane: &Plane) -> Survey
        ensures { IsSurvey self.now plane.now result }
    {
        Survey::of(&self.plane, self.edges.as_slice(), plane)
    }

    /// Whether a corner is strictly in front of a plane.
    pub(crate) fn has_corner_in_front(&self, plane: &Plane) -> bool
        ensures { IsTrue result ↔ HasCornerInFront self.now plane.now }
    {
        is_any_in_front(&self.plane, self.edges.as_slice(), plane)
    }

    /// The part in front of a plane, by the run of the corners there, where some are on both sides.
    pub(crate) fn part_in_front_of(&self, plane: &Plane, run: &Run) -> Result<Polygon, AllocError>
        requires run { IsRun self.now plane.now run.now }
        requires across { HasCornersAcross self.now plane.now }
        ensures part { IfOk result (λ w. IsPartInFront w self.now plane.now) }
        ensures inline { length self.now.edges ≤ 7 → IsOk result }
    {
        let count = steps_between(self.edges.len(), run.start, run.end);
        self.cut(plane, run.start, count)
    }

    /// The part in front of the plane, by the run of the corners there.
    fn cut(&self, plane: &Plane, start: usize, count: usize) -> Result<Polygon, AllocError>
        requires run { IsFrontRun self.now plane.now start count }
        requires behind { HasCornerBehind self.now plane.now }
        ensures cut { IfOk result (λ w. w ≡ cut self.now plane.now start count) }
        ensures inline { length self.now.edges ≤ 7 → IsOk result }
    {
        let _ = &plane.nx;
        let mut edges = SmallVec::new(*self.edges.allocator());
        add_arc(&mut edges, self.edges.as_slice(), start, count + 1)?;
        edges.push(*plane)?;
        Ok(Polygon {
            plane: self.plane,
            edges,
        })
    }

    /// Cuts it down to its part in front of a plane, by the run of the corners there, where some are on both sides. Where
    /// memory runs out, it stays as it was.
    pub(crate) fn cut_down(&mut self, plane: &Plane, run: &Run) -> Result<(), AllocError>
        requires run { IsRun self.old plane.now run.now }
        requires across { HasCornersAcross self.old plane.now }
        ensures ok { OnOk result (IsPartInFront self.new self.old plane.now) }
        ensures err { OnErr result (self.new ≡ self.old) }
    {
        let _ = &plane.nx;
        let count = steps_between(self.edges.len(), run.start, run.end);
        self.edges.reserve(1)?;
        keep_arc(&mut self.edges, run.start, count + 1);
        self.edges.push_reserved(*plane);
        Ok(())
    }

    /// Where its edges take memory from.
    pub(crate) fn allocator(&self) -> Global {
        *self.edges.allocator()
    }

    /// Cuts it down to its part in front of a plane, if there is one. Whether there is.
    pub(crate) fn keep_in_front_of(&mut self, plane: &Plane) -> Result<bool, AllocError>
        ensures { IfOk result (λ some. MatchBool some (IsPartInFront self.new self.old plane.now) (HasNoneInFront self.old plane.now)) }
    {
        let _ = &self.plane;
        if is_before(&self.plane, plane) {
            return Ok(true);
        }
        let survey = self.survey(plane);
        if !survey.front.some {
            return Ok(false);
        }
        if survey.back.some {
            self.cut_down(plane, &survey.front)?;
        }
        Ok(true)
    }

    /// The part of a plane between two pairs of others.
    pub(crate) fn parallelogram(
        alloc: Global,
        plane: &Plane,
        first: &Opposites,
        second: &Opposites,
    ) -> Result<Polygon, AllocError>
        requires { IsConvex (parallelogram plane.now first.now.near second.now.near first.now.far second.now.far) }
        ensures { IfOk result (λ w. w ≡ parallelogram plane.now first.now.near second.now.near first.now.far second.now.far) }
    {
        let _ = &plane.nx;
        let _ = &first.near.nx;
        let _ = &first.far.nx;
        let _ = &second.near.nx;
        let _ = &second.far.nx;
        let edges = SmallVec::from_array(alloc, [first.near, second.near, first.far, second.far])?;
        Ok(Polygon {
            plane: *plane,
            edges,
        })
    }
}

/// Whether a plane is parallel to another, and lies in front of it.
fn is_before(own: &Plane, plane: &Plane) -> bool
    ensures { IsTrue result → IsBefore own.now plane.now }
{
    let _ = &own.nx;
    let _ = &plane.nx;
    has_nearer(own, plane) || has_nearer(&own.flipped(), plane)
}

/// Whether a plane has the normal of another, and a greater distance.
fn has_nearer(own: &Plane, plane: &Plane) -> bool
    ensures { IsTrue result → IsNearer own.now plane.now }
{
    if !has_normal_of(own, plane) {
        return false;
    }
    own.d > plane.d
}

/// Whether two planes have one normal.
fn has_normal_of(own: &Plane, plane: &Plane) -> bool
    ensures { IsTrue result ↔ HasSameNormal own.now plane.now }
{
    own.nx == plane.nx && own.ny == plane.ny && own.nz == plane.nz
}

/// The corner at a place.
fn corner(on: &Plane, edges: &[Plane], i: usize) -> Corner
    requires convex { IsConvex (record { plane = on.now; edges = edges.now }) }
    requires in_range { i < length edges.now }
    ensures { result ≡ corner_at (record { plane = on.now; edges = edges.now }) i }
{
    let next = next_place(edges.len(), i);
    Corner::turning(on, &edges[i], &edges[next])
}
