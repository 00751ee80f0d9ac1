//! Lists of facets.

ghost use Rattle.std.specs.Prelude.{◌≡◌, map, IfOk};
ghost use Rattle.qm_convex.specs.inner.Facets.{facing_in, inward_of};

use crate::facet::Facet;
use qm_geom::Plane;
use qm_wind::Winding;
use std::alloc::{AllocError, Global};

/// Windings that are seen from inside, as facets.
pub fn facets_of(faces: Vec<Winding>) -> Result<Vec<Facet>, AllocError>
    ensures { IfOk result (λ facets. facets.items ≡ map facing_in faces.items) }
{
    let alloc = *faces.allocator();
    let mut facets = Vec::with_capacity(alloc, faces.len())?;
    for winding in faces {
        facets.push(Facet::of(alloc, winding.plane(), winding)?)?;
    }
    Ok(facets)
}

/// The planes of facets.
pub fn walls_of(alloc: Global, facets: &[Facet]) -> Result<Vec<Plane>, AllocError>
    ensures { IfOk result (λ walls. walls.items ≡ map inward_of facets.now) }
{
    let mut walls = Vec::with_capacity(alloc, facets.len())?;
    for facet in facets {
        walls.push(facet.inward)?;
    }
    Ok(walls)
}
