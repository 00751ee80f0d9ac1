ghost use Rattle.std.specs.Prelude.{◌≡◌, ◌^◌, pos, ◌↔◌, IfOk, Err, Some};
ghost use Rattle.std.specs.Ordering.{int_cmp};
ghost use Rattle.qm_space.specs.Plane.{flipped, value};
ghost use Rattle.qm_space.specs.Point.{whole_point, thousandths_point, AreCoordinates, AreThousandths};
ghost use Rattle.qm_space.specs.ThreePoints.{plane_through, IsPlaneThrough, IsPlaneTooFine};
ghost use Rattle.qm_space.specs.Line.{AreOnOneLine};
ghost use Rattle.qm_geom.specs.Vectors.{normal_vector, HasSmallComponents};

use crate::point::Point;
use crate::spanned;
use crate::through_fault::ThroughFault;
use crate::unreduced::UnreducedPlane;
use crate::vector::{Vector, product};
use std::cmp::Ordering;
use std::marker::Model;

/// A plane in lowest terms: the points with `n · p = d`. Its front is the side to which the normal
/// points.
#[derive(Clone, Copy, PartialEq, Eq, PartialOrd, Ord)]
pub struct Plane {
    pub nx: i32,
    pub ny: i32,
    pub nz: i32,
    pub d: i64,
}

impl Model for Plane {
    ghost use Rattle.qm_space.specs.Plane.{Plane};
    ghost use Rattle.qm_space.specs.Reduced.{IsReduced};

    ghost Value = { Plane };

    ghost view = { λ h. record { nx = h.nx; ny = h.ny; nz = h.nz; d = h.d } };

    ghost invariant = { λ h. IsReduced (record { nx = h.nx; ny = h.ny; nz = h.nz; d = h.d }) };

    ghost inverse = { λ h. record { nx = h.nx; ny = h.ny; nz = h.nz; d = h.d } };
}

impl Default for Plane {
    fn default() -> Plane {
        Plane {
            nx: 1,
            ny: 0,
            nz: 0,
            d: 0,
        }
    }
}

impl Plane {
    /// The plane through three points in thousandths of a map unit, and whether the normal `(p0 - p1) × (p2 - p1)` points
    /// to its front.
    pub fn through(p0: [i32; 3], p1: [i32; 3], p2: [i32; 3]) -> Result<(Plane, bool), ThroughFault>
        requires p0_in_cube { AreThousandths p0 }
        requires p1_in_cube { AreThousandths p1 }
        requires p2_in_cube { AreThousandths p2 }
        ensures value { IfOk result (λ r. r ≡ plane_through (thousandths_point p0) (thousandths_point p1) (thousandths_point p2)) }
        ensures through { IfOk result (λ r. IsPlaneThrough (thousandths_point p0) (thousandths_point p1) (thousandths_point p2) r.0 r.1) }
        ensures no_normal { (result ≡ Err ThroughFault.NoNormal) ↔ AreOnOneLine (thousandths_point p0) (thousandths_point p1) (thousandths_point p2) }
        ensures too_fine { (result ≡ Err ThroughFault.TooFine) ↔ IsPlaneTooFine (thousandths_point p0) (thousandths_point p1) (thousandths_point p2) }
    {
        spanned::in_lowest_terms(p0, p1, p2)
    }

    /// Why three points in thousandths of a map unit give no plane, if they give none.
    pub fn fault_through(p0: [i32; 3], p1: [i32; 3], p2: [i32; 3]) -> Option<ThroughFault>
        requires p0_in_cube { AreThousandths p0 }
        requires p1_in_cube { AreThousandths p1 }
        requires p2_in_cube { AreThousandths p2 }
        ensures no_normal { (result ≡ Some ThroughFault.NoNormal) ↔ AreOnOneLine (thousandths_point p0) (thousandths_point p1) (thousandths_point p2) }
        ensures too_fine { (result ≡ Some ThroughFault.TooFine) ↔ IsPlaneTooFine (thousandths_point p0) (thousandths_point p1) (thousandths_point p2) }
    {
        spanned::fault(p0, p1, p2)
    }

    /// The same of three whole points.
    pub fn through_whole(
        p0: [i32; 3],
        p1: [i32; 3],
        p2: [i32; 3],
    ) -> Result<(Plane, bool), ThroughFault>
        requires p0_in_cube { AreCoordinates p0 }
        requires p1_in_cube { AreCoordinates p1 }
        requires p2_in_cube { AreCoordinates p2 }
        ensures value { IfOk result (λ r. r ≡ plane_through (whole_point p0) (whole_point p1) (whole_point p2)) }
        ensures through { IfOk result (λ r. IsPlaneThrough (whole_point p0) (whole_point p1) (whole_point p2) r.0 r.1) }
        ensures no_normal { (result ≡ Err ThroughFault.NoNormal) ↔ AreOnOneLine (whole_point p0) (whole_point p1) (whole_point p2) }
        ensures too_fine { (result ≡ Err ThroughFault.TooFine) ↔ IsPlaneTooFine (whole_point p0) (whole_point p1) (whole_point p2) }
    {
        UnreducedPlane::outward(p0, p1, p2).in_lowest_terms()
    }

    /// The same points, with front and back exchanged.
    pub fn flipped(&self) -> Plane
        ensures { result ≡ flipped self.now }
    {
        Plane {
            nx: -self.nx,
            ny: -self.ny,
            nz: -self.nz,
            d: -self.d,
        }
    }

    /// The side of the plane on which the point lies: `Less` behind it, `Equal` on it, `Greater` in
    /// front of it.
    pub fn side(&self, at: &Point) -> Ordering
        ensures { result ≡ int_cmp (value self.now at.now) (pos 0) }
    {
        self.value(at).cmp(&0)
    }

    /// The normal.
    pub fn normal(&self) -> Vector
        ensures exact { result ≡ normal_vector self.now }
        ensures size { HasSmallComponents result (2 ^ 26) }
    {
        Vector {
            x: i64::from(self.nx),
            y: i64::from(self.ny),
            z: i64::from(self.nz),
        }
    }

    /// The value at a point: above 0 in front of the plane, 0 on it, below 0 behind it.
    pub fn value(&self, at: &Point) -> i128
        ensures { result ≡ value self.now at.now }
    {
        let along = self.normal().dot(&Vector {
            x: at.x,
            y: at.y,
            z: at.z,
        });
        along - product(self.d, at.w)
    }
}
