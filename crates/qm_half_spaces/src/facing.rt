//! Whether facets have a point in front of a plane.

ghost use Rattle.std.specs.Bool.{MatchBool};
ghost use Rattle.qm_convex.specs.Sides.{HasSomeInFront, HasNoneInFront};
ghost use Rattle.qm_facets.specs.Body.{HasFacetInFront, HasNoFacetInFront};

use qm_body::Facet;
use qm_geom::Plane;

/// Whether some facet has a point in front of a plane.
pub(crate) fn has_facet_in_front(facets: &[Facet], plane: &Plane) -> bool
    ensures { MatchBool result (HasFacetInFront plane.now facets.now) (HasNoFacetInFront plane.now facets.now) }
{
    for facet in facets {
        if has_some_in_front(facet, plane) {
            return true;
        }
    }
    false
}

/// Whether a facet has one.
fn has_some_in_front(facet: &Facet, plane: &Plane) -> bool
    ensures { MatchBool result (HasSomeInFront facet.now.winding plane.now) (HasNoneInFront facet.now.winding plane.now) }
{
    let _corners = facet.winding.len();
    facet.winding.has_corner_in_front(plane)
}
