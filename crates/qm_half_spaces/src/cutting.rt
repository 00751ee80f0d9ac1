//! What a plane leaves of facets.

ghost use Rattle.std.specs.Prelude.{IfOk, OnOk};
ghost use Rattle.qm_convex.specs.inner.Facets.{AreCut};
ghost use Rattle.qm_body.specs.inner.LeftFacets.{IsLeftAdded};

use qm_body::Facet;
use qm_geom::Plane;
use qm_wind::Side;
use std::alloc::AllocError;

/// What facets have in front of a plane.
pub(crate) fn cut_facets(facets: Vec<Facet>, plane: &Plane) -> Result<Vec<Facet>, AllocError>
    ensures { IfOk result (λ left. AreCut plane.now facets.items left.items) }
{
    let alloc = *facets.allocator();
    let mut left = Vec::with_capacity(alloc, facets.len())?;
    for facet in facets {
        cut_facet(facet, plane, &mut left)?;
    }
    Ok(left)
}

/// Adds what a facet has in front of a plane.
fn cut_facet(facet: Facet, plane: &Plane, left: &mut Vec<Facet>) -> Result<(), AllocError>
    ensures { OnOk result (IsLeftAdded plane.now facet left.old.items left.new.items) }
{
    let Facet {
        inward,
        mut winding,
    } = facet;
    if winding.cut(plane, Side::Front)? {
        left.push(Facet { inward, winding })?;
    }
    Ok(())
}
