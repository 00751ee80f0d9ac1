//! The cells of a tree, each with its bounds.

ghost use Rattle.std.specs.Prelude.{◌≡◌, List, IfOk};
ghost use Rattle.qm_space.specs.Plane.{Plane as SpacePlane, flipped};
ghost use Rattle.qm_convex.specs.Section.{IsSection};
ghost use Rattle.qm_portal.specs.inner.Cells.{CrossesCell, IsHalf};
ghost use Rattle.qm_portal.specs.inner.Walks.{has_facets};

use crate::bounds::{AXIAL_BOUNDS, add_bound};
use qm_body::{Facet, split_facets};
use qm_geom::Plane;
use qm_tree::{Child, Node};
use qm_wind::Winding;
use std::alloc::{AllocError, Global};
use std::marker::Model;

/// A cell of a tree: the child to which its way leads, planes that bound it, those across the axes first, and its facets on
/// walls of the cube.
#[derive(Drop)]
pub(crate) struct DueCell {
    pub(crate) child: Child,
    pub(crate) bounds: Vec<Plane>,
    pub(crate) on_walls: Vec<Facet>,
}

impl Model for DueCell {
    ghost use Rattle.qm_contacts.specs.inner.Due.{DueCell};
    ghost use Rattle.qm_portal.specs.inner.Cells.{BeginAxially};

    ghost Value = { DueCell };

    ghost view = { λ cell. record { child = cell.child; bounds = cell.bounds.items; on_walls = cell.on_walls.items } };

    ghost invariant = { λ cell. BeginAxially cell.bounds.items };
}

/// The cells of both children of a node.
#[derive(Drop)]
pub(crate) struct CellHalves {
    pub(crate) front: DueCell,
    pub(crate) back: DueCell,
}

impl DueCell {
    /// Whether it has a facet on a wall of the cube.
    pub(crate) fn has_walls(&self) -> bool
        ensures { result ≡ has_facets self.now.on_walls }
    {
        !self.on_walls.is_empty()
    }

    /// The part of a plane in the cell, where it has a point there.
    pub(crate) fn section(&self, alloc: Global, plane: &Plane) -> Result<Box<Winding>, AllocError>
        requires { (planes : List SpacePlane) × CrossesCell planes self.now plane.now }
        ensures { IfOk result (λ section. (planes : List SpacePlane) → CrossesCell planes self.now plane.now → IsSection planes plane.now section.value) }
    {
        let (axial, slanted) = self.bounds.split_at(AXIAL_BOUNDS);
        match Winding::between(alloc, plane, axial)? {
            Some(whole) => match whole.keep_all(slanted)? {
                Some(section) => Ok(Box::new(alloc, section)?),
                None => unreachable!(),
            },
            None => unreachable!(),
        }
    }

    /// Both sides of a node's plane.
    pub(crate) fn split(self, node: &Node, plane: &Plane) -> Result<CellHalves, AllocError>
        ensures front { IfOk result (λ halves. IsHalf self plane.now node.now.front halves.front) }
        ensures back { IfOk result (λ halves. IsHalf self (flipped plane.now) node.now.back halves.back) }
    {
        let DueCell {
            bounds,
            on_walls,
            ..
        } = self;
        let walls = split_facets(on_walls, plane)?;
        let mut behind = Vec::from_slice(*bounds.allocator(), &bounds)?;
        add_bound(&mut behind, &plane.flipped())?;
        let mut in_front = bounds;
        add_bound(&mut in_front, plane)?;
        Ok(CellHalves {
            front: DueCell {
                child: node.front,
                bounds: in_front,
                on_walls: walls.front,
            },
            back: DueCell {
                child: node.back,
                bounds: behind,
                on_walls: walls.back,
            },
        })
    }
}
