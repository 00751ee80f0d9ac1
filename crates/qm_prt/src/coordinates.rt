//! The coordinates of corners, to the nearest millionth, and which corner comes first.

ghost use Rattle.std.specs.Prelude.{◌≡◌, ◌≤◌, ◌<◌, ◌*◌, ◌+◌, ◌<ℤ◌, ℕ, pos, false, unsigned_abs, [], length, slice_index_or, IfOk};
ghost use Rattle.qm_space.specs.Bounds.{meet_bound, meet_weight_bound, rounded_bound};
ghost use Rattle.qm_space.specs.Coordinates.{HasSmallCoordinates};
ghost use Rattle.qm_numerals.specs.Printed.{millionths};
ghost use Rattle.qm_listing.specs.WorldListing.{coordinate_at, coordinates_at, come_before, place_back, IsFirstCorner};
ghost use Rattle.qm_listing.specs.inner.GoneRound.{corners_forward, steps_back};

use crate::numbers::with_sign;
use qm_decimal::nearest_millionths;
use qm_geom::Corner;
use qm_listing::Coordinate;
use qm_wind::Winding;
use std::alloc::{AllocError, Global};

const MILLION: u128 = 1_000_000;

/// The nearest millionths of a fraction that is not too large.
fn millionths_of(numerator: u128, denominator: u128) -> u64
    requires some { 0 < denominator }
    requires numerator_small { numerator ≤ meet_bound }
    requires denominator_small { denominator ≤ meet_weight_bound }
    requires small { numerator ≤ rounded_bound * denominator }
    ensures value { result ≡ millionths numerator denominator }
    ensures bound { result ≤ rounded_bound * 1000000 }
{
    if numerator % denominator == 0 {
        (numerator / denominator * MILLION) as u64
    } else {
        nearest_millionths(numerator, denominator) as u64
    }
}

/// The coordinate of a fraction.
#[tactic(auto, unfolding(qm_listing::specs::WorldListing::coordinate_at), using(qm_listing::proofs::RoundedCoordinates::negative_test))]
fn coordinate(over: i128, under: i128) -> Coordinate
    requires positive { pos 0 <ℤ under }
    requires over_small { unsigned_abs over ≤ meet_bound }
    requires under_small { unsigned_abs under ≤ meet_weight_bound }
    requires small { unsigned_abs over ≤ rounded_bound * unsigned_abs under }
    ensures { result ≡ coordinate_at over under }
{
    let numerator = over.unsigned_abs();
    let denominator = under.unsigned_abs();
    Coordinate {
        millionths: with_sign(over < 0, millionths_of(numerator, denominator)),
        whole: numerator % denominator == 0,
    }
}

/// The three coordinates of a corner.
fn coordinates_of(corner: &Corner) -> [Coordinate; 3]
    requires { HasSmallCoordinates corner.now }
    ensures { result ≡ coordinates_at corner.now }
{
    let (x, w) = corner.fraction(0);
    let (y, _) = corner.fraction(1);
    let (z, _) = corner.fraction(2);
    [coordinate(x, w), coordinate(y, w), coordinate(z, w)]
}

/// The coordinates of all corners of a winding, in the order of its edges.
pub(crate) fn corners_of(
    alloc: Global,
    winding: &Winding,
) -> Result<Vec<[Coordinate; 3]>, AllocError>
    ensures listed { IfOk result (λ corners. corners.items ≡ corners_forward winding.now) }
    ensures some { IfOk result (λ corners. 0 < length corners.items) }
{
    let count = winding.len();
    let mut corners = Vec::with_capacity(alloc, count)?;
    for i in 0..count {
        corners.push(coordinates_of(&winding.corner(i)))?;
    }
    Ok(corners)
}

/// Whether coordinates are less than others in the first place in which they differ.
fn comes_before(corner: &[Coordinate; 3], other: &[Coordinate; 3]) -> bool
    ensures { result ≡ come_before corner.now other.now }
{
    let [x, y, z] = *corner;
    let [other_x, other_y, other_z] = *other;
    if x.millionths != other_x.millionths {
        return x.millionths < other_x.millionths;
    }
    if y.millionths != other_y.millionths {
        return y.millionths < other_y.millionths;
    }
    z.millionths < other_z.millionths
}

/// The place of a corner that no other comes before.
pub(crate) fn first_corner(corners: &[[Coordinate; 3]]) -> usize
    requires { 0 < length corners.now }
    ensures within { result < length corners.now }
    ensures first { (k : ℕ) → k < length corners.now → come_before (slice_index_or corners.now k []) (slice_index_or corners.now result []) ≡ false }
{
    let mut first = 0;
    for i in 0..corners.len() {
        if comes_before(&corners[i], &corners[first]) {
            first = i;
        }
    }
    first
}

/// The place of a corner of a winding that no other comes before.
pub fn first_corner_of(alloc: Global, winding: &Winding) -> Result<usize, AllocError>
    ensures { IfOk result (IsFirstCorner winding.now) }
{
    let corners = corners_of(alloc, winding)?;
    Ok(first_corner(&corners))
}

/// The same corners, from the one at a place on backward.
pub(crate) fn back_from(
    alloc: Global,
    corners: &[[Coordinate; 3]],
    first: usize,
) -> Result<Vec<[Coordinate; 3]>, AllocError>
    requires { first < length corners.now }
    ensures { IfOk result (λ turned. turned.items ≡ steps_back corners.now first (length corners.now)) }
{
    let count = corners.len();
    let mut turned = Vec::with_capacity(alloc, count)?;
    for i in 0..count {
        turned.push(corners[place_back(count, first, i)])?;
    }
    Ok(turned)
}

/// The place so many steps before a place, of so many in a circle.
#[tactic(auto, unfolding(qm_listing::specs::WorldListing::place_back))]
fn place_back(count: usize, place: usize, steps: usize) -> usize
    requires within { place < count }
    requires few { steps < count }
    ensures value { result ≡ place_back count place steps }
    ensures within { result < count }
{
    if steps <= place {
        place - steps
    } else {
        place + (count - steps)
    }
}
