//! The plain, slow program with which clips are compared: a polygon is the list of its corners, each in
//! lowest terms, and it is cut corner by corner.

use qm_geom::{Corner, Plane};
use qm_wind::Side;
use std::alloc::{AllocError, Global};

/// A place: three numerators over one positive denominator, in lowest terms. The planes here are so
/// small that no number of 128 bits wraps.
#[derive(Clone, Copy, PartialEq, Eq)]
pub(crate) struct Place {
    x: i128,
    y: i128,
    z: i128,
    w: i128,
}

impl Place {
    pub(crate) fn whole(x: i128, y: i128, z: i128) -> Place {
        Place { x, y, z, w: 1 }
    }

    pub(crate) fn of(corner: &Corner) -> Place {
        let (x, w) = corner.fraction(0);
        let (y, _) = corner.fraction(1);
        let (z, _) = corner.fraction(2);
        Place { x, y, z, w }.in_lowest_terms()
    }

    fn in_lowest_terms(self) -> Place {
        let of_x_y = common_divisor(self.x, self.y);
        let factor = common_divisor(of_x_y, common_divisor(self.z, self.w));
        let factor = if self.w < 0 {
            factor.wrapping_neg()
        } else {
            factor
        };
        Place {
            x: self.x.checked_div(factor).unwrap_or(0),
            y: self.y.checked_div(factor).unwrap_or(0),
            z: self.z.checked_div(factor).unwrap_or(0),
            w: self.w.checked_div(factor).unwrap_or(0),
        }
    }

    /// The plane's value here, turned so that it is above 0 on the side.
    fn value(&self, plane: &Plane, side: Side) -> i128 {
        let value = i128::from(plane.nx)
            .wrapping_mul(self.x)
            .wrapping_add(i128::from(plane.ny).wrapping_mul(self.y))
            .wrapping_add(i128::from(plane.nz).wrapping_mul(self.z))
            .wrapping_sub(i128::from(plane.d).wrapping_mul(self.w));
        match side {
            Side::Front => value,
            Side::Back => value.wrapping_neg(),
        }
    }

    /// The place between two others where a plane is met that has these values there.
    fn between(&self, here: i128, other: &Place, there: i128) -> Place {
        let part = |a: i128, b: i128| here.wrapping_mul(b).wrapping_sub(there.wrapping_mul(a));
        Place {
            x: part(self.x, other.x),
            y: part(self.y, other.y),
            z: part(self.z, other.z),
            w: part(self.w, other.w),
        }
        .in_lowest_terms()
    }
}

/// By Euclid's remainders, of which there are less than 200 for numbers of 128 bits.
fn common_divisor(first: i128, second: i128) -> i128 {
    let mut greater = first.wrapping_abs();
    let mut less = second.wrapping_abs();
    for _ in 0..200 {
        if less == 0 {
            return greater;
        }
        let rest = greater.checked_rem(less).unwrap_or(0);
        greater = less;
        less = rest;
    }
    greater
}

/// What is left of a polygon on one side of a plane.
#[derive(Drop)]
pub(crate) enum Left {
    Whole,
    Gone,
    Cut(Vec<Place>),
}

/// What is left of a polygon on one side of a plane, by its corners.
pub(crate) fn clip(
    alloc: Global,
    polygon: &[Place],
    plane: &Plane,
    side: Side,
) -> Result<Left, AllocError> {
    if !polygon.iter().any(|place| place.value(plane, side) > 0) {
        return Ok(Left::Gone);
    }
    if !polygon.iter().any(|place| place.value(plane, side) < 0) {
        return Ok(Left::Whole);
    }
    Ok(Left::Cut(kept(alloc, polygon, plane, side)?))
}

/// The corners that are not behind, and those where an edge goes through the plane.
fn kept(
    alloc: Global,
    polygon: &[Place],
    plane: &Plane,
    side: Side,
) -> Result<Vec<Place>, AllocError> {
    let mut kept = Vec::new(alloc);
    for i in 0..polygon.len() {
        let place = polygon[i];
        let next = polygon[if i + 1 == polygon.len() { 0 } else { i + 1 }];
        let here = place.value(plane, side);
        let there = next.value(plane, side);
        if here >= 0 {
            kept.push(place)?;
        }
        if (here < 0 && there > 0) || (here > 0 && there < 0) {
            kept.push(place.between(here, &next, there))?;
        }
    }
    Ok(kept)
}
