//! The facets of a cell: what its border has on its planes.

ghost use Rattle.std.specs.Prelude.{◌≡◌, IfOk, OnOk};
ghost use Rattle.qm_space.specs.Plane.{flipped};
ghost use Rattle.qm_convex.specs.inner.Facets.{AreCut};
ghost use Rattle.qm_body.specs.inner.LeftFacets.{IsLeftAdded};

use qm_geom::Plane;
use qm_wind::{Severed, Winding};
use std::alloc::{AllocError, Global};
use std::marker::Model;

/// What the border of a cell has on one of its planes, which is turned to the cell.
#[derive(Drop)]
pub struct Facet {
    pub inward: Plane,
    pub winding: Box<Winding>,
}

impl Model for Facet {
    ghost use Rattle.qm_convex.specs.inner.Facets.{Facet};

    ghost Value = { Facet };

    ghost view = { λ facet. record { inward = facet.inward; winding = facet.winding.value } };
}

impl Facet {
    /// A polygon as a facet on a plane that is turned to the cell.
    pub fn of(alloc: Global, inward: Plane, winding: Winding) -> Result<Facet, AllocError>
        ensures { IfOk result (λ facet. facet ≡ record { inward = inward; winding = winding }) }
    {
        let winding = Box::new(alloc, winding)?;
        Ok(Facet { inward, winding })
    }
}

/// What facets have in front of a plane, and behind it.
#[derive(Drop)]
pub struct FacetLists {
    pub front: Vec<Facet>,
    pub back: Vec<Facet>,
}

/// What facets have in front of a plane, and behind it.
pub fn split_facets(facets: Vec<Facet>, plane: &Plane) -> Result<FacetLists, AllocError>
    ensures front { IfOk result (λ lists. AreCut plane.now facets.items lists.front.items) }
    ensures back { IfOk result (λ lists. AreCut (flipped plane.now) facets.items lists.back.items) }
{
    let alloc = *facets.allocator();
    let mut front = Vec::new(alloc);
    let mut back = Vec::new(alloc);
    for facet in facets {
        split_facet(facet, plane, &mut front, &mut back)?;
    }
    Ok(FacetLists { front, back })
}

/// Adds what a facet has in front of a plane, and behind it. Where it lies wholly on one side, it is moved; else it is cut down to
/// what is in front.
fn split_facet(
    facet: Facet,
    plane: &Plane,
    front: &mut Vec<Facet>,
    back: &mut Vec<Facet>,
) -> Result<(), AllocError>
    ensures front { OnOk result (IsLeftAdded plane.now facet front.old.items front.new.items) }
    ensures back { OnOk result (IsLeftAdded (flipped plane.now) facet back.old.items back.new.items) }
{
    let Facet {
        inward,
        mut winding,
    } = facet;
    let _corners = winding.len();
    match winding.sever(plane)? {
        Severed::Front => {
            front.push(Facet { inward, winding })?;
            Ok(())
        }
        Severed::Back => {
            back.push(Facet { inward, winding })?;
            Ok(())
        }
        Severed::On => Ok(()),
        Severed::Across(behind) => {
            back.push(Facet {
                inward,
                winding: behind,
            })?;
            front.push(Facet { inward, winding })?;
            Ok(())
        }
    }
}
