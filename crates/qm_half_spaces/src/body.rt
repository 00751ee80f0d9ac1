//! Bodies: what a cell has of the cube, as the list of its facets.

ghost use Rattle.std.specs.Prelude.{◌≡◌, ◌↔◌, [], List, IfOk, IsTrue};
ghost use Rattle.qm_space.specs.Plane.{Plane as SpacePlane, flipped};
ghost use Rattle.qm_space.specs.Cell.{HasPoint};
ghost use Rattle.qm_facets.specs.Body.{IsBody, IsSomeBody, IsBodyOrNone, with_plane};
ghost use Rattle.qm_facets.specs.Extent.{HasEachPoint, IsInClosure};
ghost use Rattle.qm_facets.specs.inner.Joined.{IsJoined};
ghost use Rattle.qm_half_spaces.specs.HalfCells.{cell_of_halves};
ghost use Rattle.qm_half_spaces.specs.inner.PartedBodies.{IsPartedBy, IsSectionOfBody, with_section};

use crate::axial::axial_bounds;
use crate::cutting::cut_facets;
use crate::extents::Extents;
use crate::facing::has_facet_in_front;
use crate::half::Half;
use qm_body::{Facet, facets_of, split_facets, walls_of};
use qm_geom::Plane;
use qm_wind::Winding;
use std::alloc::{AllocError, Global};
use std::marker::Model;

/// What a cell has of the cube, where it has a point there: the facets of it.
#[derive(Drop)]
pub struct Body {
    facets: Vec<Facet>,
}

impl Model for Body {
    ghost use Rattle.std.specs.Prelude.{List};
    ghost use Rattle.qm_convex.specs.inner.Facets.{Facet};
    ghost use Rattle.qm_facets.specs.Body.{IsSomeBody};

    ghost Value = { List Facet };

    ghost view = { λ body. body.facets.items };

    ghost invariant = { λ body. IsSomeBody body.facets.items };
}

/// What a plane leaves of a body in front of it and behind it, each where it has a point there.
#[derive(Drop)]
pub struct BodyHalves {
    pub front: Option<Body>,
    pub back: Option<Body>,
}

impl Body {
    /// The whole cube.
    pub fn whole(alloc: Global) -> Result<Body, AllocError>
        ensures { IfOk result (λ body. IsBody [] body) }
    {
        let faces = Winding::faces(alloc)?;
        let facets = facets_of(faces)?;
        Ok(Body { facets })
    }

    /// What half-spaces have in common of the cube. `None` exactly where they have no point of it.
    pub fn within(alloc: Global, halves: &[Half]) -> Result<Option<Body>, AllocError>
        ensures { IfOk result (λ left. IsBodyOrNone (cell_of_halves halves.now) left) }
    {
        let mut body = Body::whole(alloc)?;
        for half in halves {
            match body.kept(&half.inward_plane())? {
                Some(left) => body = left,
                None => return Ok(None),
            }
        }
        Ok(Some(body))
    }

    /// Each body is what some cell has of the cube.
    pub fn some_cell(&self)
        ensures { IsSomeBody self.now }
    {
        let _ = &self.facets;
    }

    /// Whether it has a point in front of a plane.
    pub fn has_point_in_front(&self, plane: &Plane) -> bool
        ensures { (cell : List SpacePlane) → IsBody cell self.now → IsTrue result ↔ HasPoint (with_plane cell plane.now) }
    {
        let _ = &self.facets;
        has_facet_in_front(&self.facets, plane)
    }

    /// What a plane leaves of it on both sides. Where the plane does not part it, it is moved and not copied.
    pub fn split(self, plane: &Plane) -> Result<BodyHalves, AllocError>
        ensures front { IfOk result (λ halves. (cell : List SpacePlane) → IsBody cell self → IsBodyOrNone (with_plane cell plane.now) halves.front) }
        ensures back { IfOk result (λ halves. (cell : List SpacePlane) → IsBody cell self → IsBodyOrNone (with_plane cell (flipped plane.now)) halves.back) }
    {
        let _ = &plane.nx;
        if !has_facet_in_front(&self.facets, &plane.flipped()) {
            return Ok(BodyHalves {
                front: Some(self),
                back: None,
            });
        }
        if !has_facet_in_front(&self.facets, plane) {
            return Ok(BodyHalves {
                front: None,
                back: Some(self),
            });
        }
        self.parted(plane)
    }

    /// What a plane leaves of it in front. `None` exactly where no point of it is there.
    pub fn kept(self, plane: &Plane) -> Result<Option<Body>, AllocError>
        ensures { IfOk result (λ left. (cell : List SpacePlane) → IsBody cell self → IsBodyOrNone (with_plane cell plane.now) left) }
    {
        let _ = &plane.nx;
        if !has_facet_in_front(&self.facets, &plane.flipped()) {
            return Ok(Some(self));
        }
        if !has_facet_in_front(&self.facets, plane) {
            return Ok(None);
        }
        Ok(Some(self.front(plane)?))
    }

    /// The least box that has another one within and all of the body, its border with it.
    pub fn widened(&self, so_far: Extents) -> Extents
        ensures { (cell : List SpacePlane) → IsBody cell self.now → IsJoined so_far (HasEachPoint (IsInClosure cell)) result }
    {
        let _ = &self.facets;
        so_far.with_facets(&self.facets)
    }

    /// Both sides, where the plane parts it.
    fn parted(self, plane: &Plane) -> Result<BodyHalves, AllocError>
        requires { IsPartedBy plane.now self }
        ensures front { IfOk result (λ halves. (cell : List SpacePlane) → IsBody cell self → IsBodyOrNone (with_plane cell plane.now) halves.front) }
        ensures back { IfOk result (λ halves. (cell : List SpacePlane) → IsBody cell self → IsBodyOrNone (with_plane cell (flipped plane.now)) halves.back) }
    {
        let Body { facets } = self;
        let alloc = *facets.allocator();
        let section = section_of(alloc, &facets, plane)?;
        let again = section.copy()?;
        let lists = split_facets(facets, plane)?;
        Ok(BodyHalves {
            front: Some(Body::closed(lists.front, *plane, section)?),
            back: Some(Body::closed(lists.back, plane.flipped(), again)?),
        })
    }

    /// What is in front, where the plane parts it.
    fn front(self, plane: &Plane) -> Result<Body, AllocError>
        requires { IsPartedBy plane.now self }
        ensures { IfOk result (λ left. (cell : List SpacePlane) → IsBody cell self → IsBody (with_plane cell plane.now) left) }
    {
        let Body { facets } = self;
        let alloc = *facets.allocator();
        let section = section_of(alloc, &facets, plane)?;
        let left = cut_facets(facets, plane)?;
        Body::closed(left, *plane, section)
    }

    /// The body of some facets and a section.
    fn closed(facets: Vec<Facet>, inward: Plane, section: Winding) -> Result<Body, AllocError>
        requires { IsSomeBody (with_section facets.items inward section) }
        ensures { IfOk result (λ body. body ≡ with_section facets.items inward section) }
    {
        let alloc = *facets.allocator();
        let mut facets = facets;
        facets.push(Facet::of(alloc, inward, section)?)?;
        Ok(Body { facets })
    }
}

/// What a body has of a plane that parts it.
fn section_of(alloc: Global, facets: &[Facet], plane: &Plane) -> Result<Winding, AllocError>
    requires parted { IsPartedBy plane.now facets.now }
    requires body { IsSomeBody facets.now }
    ensures { IfOk result (IsSectionOfBody facets.now plane.now) }
{
    let walls = walls_of(alloc, facets)?;
    let bounds = axial_bounds(alloc, &walls)?;
    match Winding::between(alloc, plane, &bounds)? {
        Some(whole) => match whole.keep_all(&walls)? {
            Some(section) => Ok(section),
            None => unreachable!(),
        },
        None => unreachable!(),
    }
}
