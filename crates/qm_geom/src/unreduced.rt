ghost use Rattle.std.specs.Prelude.{◌≡◌, ◌<◌, ◌≤◌, ◌^◌, ◌%◌, ◌↔◌, IsTrue, pos, int_div, unsigned_abs, IfSome, MatchOption};
ghost use Rattle.qm_space.specs.Bounds.{normal_bound, distance_bound, outward_normal_bound};
ghost use Rattle.qm_space.specs.Plane.{flipped};
ghost use Rattle.qm_space.specs.Turned.{turned};
ghost use Rattle.qm_space.specs.Reduced.{leads_positive, HasNormal, HasNormalUpTo, HasSmallNormal, HasLargeNormal};
ghost use Rattle.qm_space.specs.Point.{thousandths_point, AreThousandths};
ghost use Rattle.qm_space.specs.ThreePoints.{outward_plane, in_space, common_factor, reduced};
ghost use Rattle.qm_space.specs.inner.SpannedSizes.{IsWithinReach};
ghost use Rattle.qm_geom.specs.inner.Axes.{HasNormalAlong};
ghost use Rattle.qm_geom.specs.inner.Lowest.{IsLowestAnswer, IsLowestFault};

use crate::axis::Axis;
use crate::factor::common_divisor;
use crate::plane::Plane;
use crate::through_fault::ThroughFault;
use crate::vector::Vector;
use std::marker::Model;

/// How many thousandths a map unit has.
const THOUSANDTHS: i64 = 1000;

/// The greatest component of a plane's normal.
const GREATEST_COMPONENT: u64 = 1 << 26;

/// A plane before it is brought to lowest terms; its normal may be zero.
#[derive(Clone, Copy)]
pub(crate) struct UnreducedPlane {
    nx: i64,
    ny: i64,
    nz: i64,
    d: i128,
}

impl Model for UnreducedPlane {
    ghost use Rattle.qm_space.specs.Plane.{Plane};
    ghost use Rattle.qm_space.specs.inner.SpannedSizes.{HasSpannedSizes};

    ghost Value = { Plane };

    ghost view = { λ h. record { nx = h.nx; ny = h.ny; nz = h.nz; d = h.d } };

    ghost invariant = { λ h. HasSpannedSizes (record { nx = h.nx; ny = h.ny; nz = h.nz; d = h.d }) };

    ghost inverse = { λ h. record { nx = h.nx; ny = h.ny; nz = h.nz; d = h.d } };
}

impl UnreducedPlane {
    /// The plane over the numerators of three points whose normal is `(p0 - p1) × (p2 - p1)`.
    pub(crate) fn outward(p0: [i32; 3], p1: [i32; 3], p2: [i32; 3]) -> UnreducedPlane
        requires p0_in_cube { AreThousandths p0 }
        requires p1_in_cube { AreThousandths p1 }
        requires p2_in_cube { AreThousandths p2 }
        ensures value { result ≡ outward_plane (thousandths_point p0) (thousandths_point p1) (thousandths_point p2) }
        ensures size { HasNormalUpTo outward_normal_bound result }
    {
        let normal = Vector::between(p1, p0).cross(&Vector::between(p1, p2));
        UnreducedPlane {
            nx: normal.x,
            ny: normal.y,
            nz: normal.z,
            d: normal.dot(&Vector::of(p1)),
        }
    }

    /// A plane over numerators in thousandths of a map unit, as the plane in space.
    pub(crate) fn in_thousandths(&self) -> UnreducedPlane
        requires { HasNormalUpTo outward_normal_bound self.now }
        ensures { result ≡ in_space (pos 1000) self.now }
    {
        UnreducedPlane {
            nx: THOUSANDTHS * self.nx,
            ny: THOUSANDTHS * self.ny,
            nz: THOUSANDTHS * self.nz,
            d: self.d,
        }
    }

    /// The plane in lowest terms with its first component that is not 0 positive, and whether the front of this one is its
    /// front.
    pub(crate) fn in_lowest_terms(&self) -> Result<(Plane, bool), ThroughFault>
        requires { IsWithinReach self.now }
        ensures { IsLowestAnswer self.now result }
    {
        if !self.has_normal() {
            return Err(ThroughFault::NoNormal);
        }
        match self.leading().reduced() {
            Some(plane) => Ok((plane, self.leads_positive())),
            None => Err(ThroughFault::TooFine),
        }
    }

    /// Why it cannot be brought to lowest terms, if it cannot. A small normal stays small, so no factor is looked for.
    pub(crate) fn fault(&self) -> Option<ThroughFault>
        requires { IsWithinReach self.now }
        ensures { IsLowestFault self.now result }
    {
        if self.has_normal() && self.has_small_normal() {
            return None;
        }
        match self.in_lowest_terms() {
            Ok(_) => None,
            Err(fault) => Some(fault),
        }
    }

    /// Whether the normal is not zero.
    pub(crate) fn has_normal(&self) -> bool
        ensures { IsTrue result ↔ HasNormal self.now }
    {
        self.nx != 0 || self.ny != 0 || self.nz != 0
    }

    /// The axis along which the normal lies, if it lies along one.
    pub(crate) fn axis(&self) -> Option<Axis>
        ensures { IfSome result (λ axis. HasNormalAlong self.now axis) }
    {
        if self.nz == 0 {
            if self.ny == 0 {
                return Some(Axis::X);
            }
            if self.nx == 0 {
                return Some(Axis::Y);
            }
            return None;
        }
        if self.nx == 0 && self.ny == 0 {
            return Some(Axis::Z);
        }
        None
    }

    /// Whether no component of the normal is beyond that of a plane.
    fn has_small_normal(&self) -> bool
        ensures { IsTrue result → HasSmallNormal self.now }
    {
        self.nx.unsigned_abs() <= GREATEST_COMPONENT
            && self.ny.unsigned_abs() <= GREATEST_COMPONENT
            && self.nz.unsigned_abs() <= GREATEST_COMPONENT
    }

    /// Whether the first component of the normal that is not 0 is positive.
    pub(crate) fn leads_positive(&self) -> bool
        ensures { result ≡ leads_positive self.now }
    {
        if self.nx != 0 {
            return self.nx > 0;
        }
        if self.ny != 0 {
            return self.ny > 0;
        }
        self.nz > 0
    }

    /// The same points, with the normal turned where it does not lead with a positive component.
    fn leading(&self) -> UnreducedPlane
        ensures value { result ≡ turned (leads_positive self.now) self.now }
        ensures normal { HasNormal self.now → HasNormal result }
    {
        if self.leads_positive() {
            *self
        } else {
            self.flipped()
        }
    }

    /// The same points, with front and back exchanged.
    fn flipped(&self) -> UnreducedPlane
        ensures { result ≡ flipped self.now }
    {
        UnreducedPlane {
            nx: -self.nx,
            ny: -self.ny,
            nz: -self.nz,
            d: -self.d,
        }
    }

    /// The greatest number that divides all four numbers.
    fn common_factor(&self) -> u64
        requires { HasNormal self.now }
        ensures value { result ≡ common_factor self.now }
        ensures positive { 0 < result }
        ensures size { result < 2 ^ 63 }
    {
        let of_two = common_divisor(self.nx.unsigned_abs(), self.ny.unsigned_abs());
        let of_three = common_divisor(self.nz.unsigned_abs(), of_two);
        common_divisor(of_three, remainder(self.d.unsigned_abs(), of_three))
    }

    /// The plane in lowest terms; `None` where a component of its normal is too great.
    fn reduced(&self) -> Option<Plane>
        requires normal { HasNormal self.now }
        requires near { IsWithinReach self.now }
        ensures { MatchOption result (HasLargeNormal (reduced self.now)) (λ h. (h ≡ reduced self.now) × HasSmallNormal h) }
    {
        let factor = self.common_factor();
        Some(Plane {
            nx: component_quotient(self.nx, factor)?,
            ny: component_quotient(self.ny, factor)?,
            nz: component_quotient(self.nz, factor)?,
            d: distance_quotient(self.d, factor),
        })
    }
}

/// A component of a normal in lowest terms; `None` where it is too great.
fn component_quotient(component: i64, factor: u64) -> Option<i32>
    requires factor_positive { 0 < factor }
    requires factor_small { factor < 2 ^ 63 }
    ensures { MatchOption result (normal_bound < unsigned_abs (int_div component (pos factor))) (λ n. (n ≡ int_div component (pos factor)) × (unsigned_abs n ≤ normal_bound)) }
{
    let quotient = component / factor as i64;
    if quotient.unsigned_abs() > GREATEST_COMPONENT {
        return None;
    }
    Some(quotient as i32)
}

/// A distance in lowest terms. Most distances fit into 64 bits, which divide faster.
fn distance_quotient(distance: i128, factor: u64) -> i64
    requires factor_positive { 0 < factor }
    requires factor_small { factor < 2 ^ 63 }
    requires small { unsigned_abs (int_div distance (pos factor)) ≤ distance_bound }
    ensures { result ≡ int_div distance (pos factor) }
{
    match i64::try_from(distance) {
        Ok(distance) => distance / factor as i64,
        Err(_) => (distance / i128::from(factor)) as i64,
    }
}

/// What a divisor leaves of a distance.
fn remainder(distance: u128, divisor: u64) -> u64
    requires { 0 < divisor }
    ensures { result ≡ distance % divisor }
{
    match u64::try_from(distance) {
        Ok(distance) => distance % divisor,
        Err(_) => (distance % u128::from(divisor)) as u64,
    }
}
