ghost use Rattle.std.specs.Prelude.{◌≡◌, ◌<◌, length, IfOk, OnOk};
ghost use Rattle.qm_space.specs.Bounds.{world_extent};
ghost use Rattle.qm_wind.specs.Entered.{IsPane};
ghost use Rattle.qm_convex.specs.Rotation.{place_after};
ghost use Rattle.qm_listing.specs.WorldListing.{place_back, IsFirstCorner};
ghost use Rattle.qm_face_layout.specs.FaceCorners.{place_on, IsNumberedCorner, AreNumberedCorners};
ghost use Rattle.qm_face_layout.specs.PlaneNumbers.{IsPlaneNumber};
ghost use Rattle.qm_face_corners.specs.NamedPlanes.{HasNamedPlanes};
ghost use Rattle.qm_face_corners.specs.inner.CornerParts.{AreSomeCorners};

use crate::plane_numbers::PlaneNumbers;
use qm_lists::Items;
use qm_prt::first_corner_of;
use qm_wind::{Pane, Winding};
use std::alloc::{AllocError, Global};

/// The corners around a pane, clockwise as seen from the leaf that is entered, from the one on that comes first. Each is the
/// numbers of the pane's plane, of the plane of the edge towards the corner before, and of that towards the next corner.
pub fn numbered_corners(
    alloc: Global,
    pane: &Pane,
    numbers: &mut PlaneNumbers<'_>,
) -> Result<Items<[i64; 3]>, AllocError>
    requires pane { IsPane pane.now }
    requires named { HasNamedPlanes numbers.old pane.now.winding }
    ensures corners { IfOk result (AreNumberedCorners numbers.old world_extent pane.now.winding pane.now.into) }
    ensures same { OnOk result (numbers.new ≡ numbers.old) }
{
    let winding = &pane.winding;
    let in_front = pane.into == winding.plane();
    let first = first_corner_of(alloc, winding)?;
    let corners = corners_from(alloc, winding, numbers, in_front, first)?;
    Ok(Items::from_vec(corners))
}

/// The corners of a winding from the one at a place on, backward or not.
fn corners_from(
    alloc: Global,
    winding: &Winding,
    numbers: &mut PlaneNumbers<'_>,
    backward: bool,
    first: usize,
) -> Result<Vec<[i64; 3]>, AllocError>
    requires named { HasNamedPlanes numbers.old winding.now }
    requires within { first < length winding.now.edges }
    ensures corners { IfOk result (λ corners. AreSomeCorners numbers.old winding.now backward first (length winding.now.edges) corners.items) }
    ensures same { OnOk result (numbers.new ≡ numbers.old) }
{
    let count = winding.len();
    let own = numbers.number(&winding.plane());
    let mut corners = Vec::with_capacity(alloc, count)?;
    for i in 0..count {
        let place = place_on(count, backward, first, i);
        corners.push(corner_numbers(winding, numbers, backward, place, own))?;
    }
    Ok(corners)
}

/// A corner of a winding by the numbers of its planes, the winding's own first, where corners go backward or not.
fn corner_numbers(
    winding: &Winding,
    numbers: &mut PlaneNumbers<'_>,
    backward: bool,
    place: usize,
    own: i64,
) -> [i64; 3]
    requires named { HasNamedPlanes numbers.old winding.now }
    requires within { place < length winding.now.edges }
    requires own { IsPlaneNumber numbers.old world_extent winding.now.plane own }
    ensures corner { IsNumberedCorner numbers.old world_extent winding.now backward place result }
    ensures same { numbers.new ≡ numbers.old }
{
    let ahead = numbers.number(&winding.edge(place));
    let behind = numbers.number(&winding.edges()[place]);
    if backward {
        [own, ahead, behind]
    } else {
        [own, behind, ahead]
    }
}

/// The place so many steps on from a place, backward or not, of so many in a circle.
fn place_on(count: usize, backward: bool, first: usize, steps: usize) -> usize
    requires within { first < count }
    requires few { steps < count }
    ensures value { result ≡ place_on backward count first steps }
    ensures within { result < count }
{
    if backward {
        place_back(count, first, steps)
    } else {
        place_after(count, first, steps)
    }
}

#[tactic(auto, unfolding(qm_listing::specs::WorldListing::place_back))]
fn place_back(count: usize, first: usize, steps: usize) -> usize
    requires within { first < count }
    requires few { steps < count }
    ensures value { result ≡ place_back count first steps }
    ensures within { result < count }
{
    if steps <= first {
        first - steps
    } else {
        first + (count - steps)
    }
}

#[tactic(auto, unfolding(qm_convex::specs::Rotation::place_after))]
fn place_after(count: usize, first: usize, steps: usize) -> usize
    requires within { first < count }
    requires few { steps < count }
    ensures value { result ≡ place_after count first steps }
    ensures within { result < count }
{
    if steps < count - first {
        first + steps
    } else {
        steps - (count - first)
    }
}
