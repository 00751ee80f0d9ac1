ghost use Rattle.std.specs.Prelude.{◌≡◌, ◌<◌, ◌≤◌, ◌↔◌, length, Contains, IsTrue, IsOk, IfOk, MatchOption};
ghost use Rattle.qm_space.specs.Coordinates.{HasSmallCoordinates};
ghost use Rattle.qm_space.specs.Plane.{IsOn};
ghost use Rattle.qm_convex.specs.Winding.{next_place, edge_after, corner_at};
ghost use Rattle.qm_convex.specs.Vertex.{IsVertex, HasVerticesAsCorners};
ghost use Rattle.qm_convex.specs.Sides.{LiesIn, HasCornerInFront, HasCornerBehind};
ghost use Rattle.qm_convex.specs.World.{MissesCube, IsWorldPart, IsInWorld, LiesWithin};
ghost use Rattle.qm_convex.specs.Section.{IsSection, MissesCell, AreAxialBounds};
ghost use Rattle.qm_space.specs.Cube.{IsInClosedCube};
ghost use Rattle.qm_wind.specs.Lying.{IsLying, AreCornerSides};
ghost use Rattle.qm_wind.specs.inner.AxialCells.{bounds_of};
ghost use Rattle.qm_wind.specs.inner.Finding.{IsFound};

use crate::across::Across;
use crate::axial_cell::AxialCell;
use crate::corner_sides::CornerSides;
use crate::found::Found;
use crate::lies::Lies;
use crate::polygon::Polygon;
use qm_geom::{Corner, Cuboid, Plane};
use std::alloc::{AllocError, Global};
use std::marker::Model;

/// The two sides of a plane.
#[derive(Clone, Copy, Debug, PartialEq, Eq)]
pub enum Side {
    Front,
    Back,
}

/// A convex polygon on a plane, in the world's cube or on its walls: one plane for each edge, with the
/// polygon on its front. Beside it there is a cuboid that has all its points.
#[derive(Drop)]
pub struct Winding {
    pub(crate) polygon: Polygon,
    pub(crate) cuboid: Cuboid,
}

impl Model for Winding {
    ghost use Rattle.qm_convex.specs.Winding.{Winding};
    ghost use Rattle.qm_wind.specs.inner.Held.{HasCuboid};

    ghost Value = { Winding };

    ghost view = { λ w. w.polygon };

    ghost invariant = { λ w. HasCuboid w.polygon w.cuboid };
}

/// What is left of a winding on one side of a plane.
#[derive(Drop)]
pub enum Clip {
    Whole,
    Gone,
    Cut(Winding),
}

impl Winding {
    /// The part of the plane inside the world's open cube. `None` exactly where no point of the cube is
    /// on the plane.
    pub fn on(alloc: Global, plane: &Plane) -> Result<Option<Winding>, AllocError>
        ensures { IfOk result (λ part. MatchOption part (MissesCube plane.now) (λ w. IsWorldPart w plane.now)) }
    {
        Winding::in_cell(alloc, plane, &AxialCell::whole())
    }

    /// The part of the plane in the cell of six axial bounds, in the order of the cube's walls. `None` exactly where no
    /// point of the cell is on the plane.
    pub fn between(
        alloc: Global,
        plane: &Plane,
        bounds: &[Plane],
    ) -> Result<Option<Winding>, AllocError>
        requires { AreAxialBounds bounds.now }
        ensures { IfOk result (λ part. MatchOption part (MissesCell bounds.now plane.now) (λ w. IsSection bounds.now plane.now w)) }
    {
        Winding::in_cell(alloc, plane, &AxialCell::of(bounds))
    }

    /// The part of the plane in a cell: the parallelogram of two pairs of its planes, cut by the third one.
    fn in_cell(
        alloc: Global,
        plane: &Plane,
        cell: &AxialCell,
    ) -> Result<Option<Winding>, AllocError>
        requires { AreAxialBounds (bounds_of cell.now) }
        ensures { IfOk result (λ part. MatchOption part (MissesCell (bounds_of cell.now) plane.now) (λ w. IsSection (bounds_of cell.now) plane.now w)) }
    {
        if !cell.is_open() {
            return Ok(None);
        }
        let pairs = Across::of(plane, cell);
        let mut polygon = Polygon::parallelogram(alloc, plane, &pairs.first, &pairs.second)?;
        if !polygon.keep_in_front_of(&pairs.third.near)? {
            return Ok(None);
        }
        if !polygon.keep_in_front_of(&pairs.third.far)? {
            return Ok(None);
        }
        Ok(Some(Winding::in_cuboid(polygon, cell.cuboid())))
    }

    /// A polygon in the closed cube as a winding.
    pub(crate) fn in_world(polygon: Polygon) -> Winding
        requires { IsInWorld polygon }
        ensures { result ≡ polygon }
    {
        Winding::in_cuboid(polygon, Cuboid::whole())
    }

    /// A polygon in the closed cube as a winding, by a cuboid that has all its points.
    fn in_cuboid(polygon: Polygon, cuboid: Cuboid) -> Winding
        requires in_world { IsInWorld polygon }
        requires within { LiesWithin polygon cuboid }
        ensures { result ≡ polygon }
    {
        let plane = polygon.plane();
        Winding {
            polygon,
            cuboid: cuboid.tightened_on(&plane),
        }
    }

    /// Where the winding lies beside a plane.
    pub fn lies(&self, plane: &Plane) -> Lies
        ensures { IsLying result self.now plane.now }
    {
        let _ = &self.polygon;
        match self.found(plane) {
            Found::Front => Lies::Front,
            Found::Back => Lies::Back,
            Found::On => Lies::On,
            Found::Across(_) => Lies::Across,
        }
    }

    /// On which sides of a plane it has corners.
    pub fn corner_sides(&self, plane: &Plane) -> CornerSides
        ensures { AreCornerSides result self.now plane.now }
    {
        let _ = &self.polygon;
        let (in_front, behind) = match self.found(plane) {
            Found::Front => (true, false),
            Found::Back => (false, true),
            Found::On => (false, false),
            Found::Across(_) => (true, true),
        };
        CornerSides { in_front, behind }
    }

    /// Whether a corner is strictly in front of a plane: by its cuboid, or by its corners where the plane cuts the cuboid.
    pub fn has_corner_in_front(&self, plane: &Plane) -> bool
        ensures { IsTrue result ↔ HasCornerInFront self.now plane.now }
    {
        let _ = &self.polygon;
        if self.cuboid.greatest_value(plane) <= 0 {
            return false;
        }
        if self.cuboid.least_value(plane) > 0 {
            return true;
        }
        self.polygon.has_corner_in_front(plane)
    }

    /// Whether a corner is strictly behind a plane.
    pub fn has_corner_behind(&self, plane: &Plane) -> bool
        ensures { IsTrue result ↔ HasCornerBehind self.now plane.now }
    {
        self.has_corner_in_front(&plane.flipped())
    }

    /// Where the winding lies beside a plane: by its cuboid, or by its corners where the plane cuts the
    /// cuboid.
    pub(crate) fn found(&self, plane: &Plane) -> Found
        ensures { IsFound result self.now plane.now }
    {
        let least = self.cuboid.least_value(plane);
        if least > 0 {
            return Found::Front;
        }
        if least >= 0 {
            return if self.is_on(plane) {
                Found::On
            } else {
                Found::Front
            };
        }
        let greatest = self.cuboid.greatest_value(plane);
        if greatest < 0 {
            return Found::Back;
        }
        if greatest <= 0 {
            return if self.is_on(plane) {
                Found::On
            } else {
                Found::Back
            };
        }
        self.found_by_corners(plane)
    }

    /// Where the winding lies beside a plane, by its corners.
    fn found_by_corners(&self, plane: &Plane) -> Found
        ensures { IsFound result self.now plane.now }
    {
        let survey = self.polygon.survey(plane);
        match (survey.front.some, survey.back.some) {
            (true, true) => Found::Across(survey),
            (true, false) => Found::Front,
            (false, true) => Found::Back,
            (false, false) => Found::On,
        }
    }

    /// Whether the winding lies in a plane.
    fn is_on(&self, plane: &Plane) -> bool
        ensures { IsTrue result ↔ LiesIn self.now plane.now }
    {
        let own = self.polygon.plane();
        let _ = &own.nx;
        let _ = &plane.nx;
        own == *plane || own == plane.flipped()
    }

    /// The same winding once more. No memory is wanted for at most eight corners.
    pub fn copy(&self) -> Result<Winding, AllocError>
        ensures same { IfOk result (λ w. w ≡ self.now) }
        ensures inline { length self.now.edges ≤ 8 → IsOk result }
    {
        Ok(Winding {
            polygon: self.polygon.copy()?,
            cuboid: self.cuboid,
        })
    }

    /// A cuboid that has all points of the winding. It may be larger than need be.
    pub fn cuboid(&self) -> Cuboid
        ensures { LiesWithin self.now result }
    {
        self.cuboid
    }

    /// How many corners it has, which are exactly its vertices: at least three, and no three neighbours
    /// on a line.
    pub fn len(&self) -> usize
        ensures count { result ≡ length self.now.edges }
        ensures enough { 3 ≤ result }
        ensures vertices { HasVerticesAsCorners self.now }
        ensures in_world { IsInWorld self.now }
    {
        self.polygon.len()
    }

    /// The corner at a place: a vertex, in the world's cube or on its border.
    pub fn corner(&self, i: usize) -> Corner
        requires { i < length self.now.edges }
        ensures exact { result ≡ corner_at self.now i }
        ensures vertex { IsVertex self.now result }
        ensures in_closed_cube { IsInClosedCube result }
        ensures small { HasSmallCoordinates result }
    {
        self.polygon.corner(i)
    }

    /// The plane of the edge from the corner at a place to the next one. The edge that ends at the corner is the one
    /// before it.
    pub fn edge(&self, i: usize) -> Plane
        requires { i < length self.now.edges }
        ensures exact { result ≡ edge_after self.now i }
        ensures edge { Contains self.now.edges result }
        ensures corner { IsOn result (corner_at self.now i) }
        ensures next { IsOn result (corner_at self.now (next_place (length self.now.edges) i)) }
    {
        self.polygon.edge(i)
    }

    /// The plane on which it lies.
    pub fn plane(&self) -> Plane
        ensures { result ≡ self.now.plane }
    {
        self.polygon.plane()
    }

    /// The planes of its edges, in their order: it lies in front of each.
    pub fn edges(&self) -> &[Plane]
        ensures { result.now ≡ self.now.edges }
    {
        self.polygon.edges()
    }
}
