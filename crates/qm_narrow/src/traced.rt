//! Windings with what is wanted of their corners again and again.

ghost use Rattle.std.specs.Prelude.{◌≡◌, ◌<◌, ◌≤◌, pos, ◌<ℤ◌, [], ◌∷◌, length, IfOk, OnOk, IsTrue, ◌↔◌};
ghost use Rattle.qm_space.specs.Bounds.{whole_normal_bound};
ghost use Rattle.qm_space.specs.LeastDistance.{IsLeastDistance};
ghost use Rattle.qm_space.specs.Coordinates.{HasSmallCoordinates};
ghost use Rattle.qm_convex.specs.Winding.{corner_at, corners};
ghost use Rattle.qm_convex.specs.World.{IsInWorld};
ghost use Rattle.qm_convex.specs.Sides.{HasCornerBehind, HasCornerInFront};
ghost use Rattle.qm_space.specs.Plane.{IsBehind, IsInFront};
ghost use Rattle.qm_narrow.specs.inner.Trace.{IsSpotOf, IsTrace};

use crate::corner_lists::CornerLists;
use crate::reach::Reach;
use crate::sizes::size_of;
use crate::spot::Spot;
use qm_geom::{Corner, Plane, Vector, least_distance};
use qm_wind::Winding;
use std::alloc::{AllocError, Global};
use std::cmp::Ordering;
use std::marker::Model;

/// A winding with its corners, and the whole points near each of them, computed once.
#[derive(Drop)]
pub(crate) struct Traced {
    winding: Winding,
    lists: CornerLists,
}

impl Model for Traced {
    ghost use Rattle.qm_convex.specs.Winding.{Winding};
    ghost use Rattle.qm_narrow.specs.inner.Trace.{IsTrace};

    ghost Value = { Winding };

    ghost view = { λ t. t.winding };

    ghost invariant = { λ t. IsTrace t.winding t.lists.corners.items t.lists.spots.items };
}

impl Traced {
    ghost use Rattle.qm_narrow.specs.inner.Trace.{IsSpotOf};
    ghost use Rattle.qm_geom.specs.Vectors.{HasSmallComponents};
    ghost use Rattle.qm_narrow.specs.inner.Look.{IsReach, IsFineReach};

    /// A winding with these, in lists that are used again.
    pub(crate) fn of(lists: CornerLists, winding: Winding) -> Result<Traced, AllocError>
        ensures { IfOk result (λ traced. traced ≡ winding) }
    {
        let mut lists = lists;
        lists.trace(&winding)?;
        Ok(Traced { winding, lists })
    }

    /// A copy of a winding with these.
    pub(crate) fn copied(alloc: Global, winding: &Winding) -> Result<Traced, AllocError>
        ensures { IfOk result (λ traced. traced ≡ winding.now) }
    {
        let copy = winding.copy()?;
        Traced::of(CornerLists::new(alloc), copy)
    }

    /// The same once more, with what was computed copied to lists that are used again.
    pub(crate) fn copied_in(&self, lists: CornerLists) -> Result<Traced, AllocError>
        ensures { IfOk result (λ traced. traced ≡ self.now) }
    {
        let mut lists = lists;
        lists.copy_from(&self.lists)?;
        let winding = self.winding.copy()?;
        Ok(Traced { winding, lists })
    }

    /// The winding itself.
    pub(crate) fn winding(&self) -> &Winding
        ensures value { result.now ≡ self.now }
    {
        &self.winding
    }

    /// The winding and the lists, given back.
    pub(crate) fn into_parts(self) -> (Winding, CornerLists)
        ensures { result.0 ≡ self }
    {
        let Traced { winding, lists } = self;
        (winding, lists)
    }

    /// How many corners it has.
    pub(crate) fn len(&self) -> usize
        ensures count { result ≡ length self.now.edges }
        ensures enough { 3 ≤ result }
        ensures in_world { IsInWorld self.now }
    {
        self.winding.len()
    }

    /// The whole points near a corner.
    pub(crate) fn spot(&self, i: usize) -> &Spot
        requires { i < length self.now.edges }
        ensures { IsSpotOf (corner_at self.now i) result.now }
    {
        &self.lists.spots[i]
    }

    /// A corner.
    fn corner(&self, i: usize) -> &Corner
        requires { i < length self.now.edges }
        ensures value { result.now ≡ corner_at self.now i }
        ensures small { HasSmallCoordinates result.now }
    {
        let _corners = self.winding.len();
        &self.lists.corners[i]
    }

    /// Whether a corner is strictly behind a plane.
    pub(crate) fn has_corner_behind(&self, plane: &Plane) -> bool
        ensures { IsTrue result ↔ HasCornerBehind self.now plane.now }
    {
        let count = self.len();
        for i in 0..count {
            if is_behind(self.spot(i), self.corner(i), plane) {
                return true;
            }
        }
        false
    }

    /// Whether a corner is strictly in front of a plane.
    pub(crate) fn has_corner_in_front(&self, plane: &Plane) -> bool
        ensures { IsTrue result ↔ HasCornerInFront self.now plane.now }
    {
        let count = self.len();
        for i in 0..count {
            if is_ahead(self.spot(i), self.corner(i), plane) {
                return true;
            }
        }
        false
    }

    /// The least whole distance at which no corner is in front of the plane with this plane's normal. It begins where the
    /// whole points near the corners allow; only a corner that these do not tell to be behind is asked for its own.
    pub(crate) fn least_distance(&self, along: &Plane) -> i64
        ensures { IsLeastDistance (along.now.nx ∷ along.now.ny ∷ along.now.nz ∷ []) (corners self.now) result }
    {
        let count = self.len();
        let normal = along.normal();
        let mut least = self.reach(&normal).low;
        for i in 0..count {
            if self.spot(i).greatest(&normal) > least {
                least = least.max(distance_of(self.corner(i), along));
            }
        }
        least
    }

    /// Its reach along a normal.
    pub(crate) fn reach(&self, normal: &Vector) -> Reach
        requires { HasSmallComponents normal.now whole_normal_bound }
        ensures { IsReach self.now normal.now result }
    {
        let _corners = self.len();
        let mut reach = Reach::of(self.spot(0), normal);
        for spot in &self.lists.spots {
            reach = reach.with(spot, normal);
        }
        reach
    }

    /// Its reach along a normal, in fine units.
    pub(crate) fn fine_reach(&self, normal: &Vector) -> Reach
        requires { HasSmallComponents normal.now whole_normal_bound }
        ensures { IsFineReach self.now normal.now result }
    {
        let _corners = self.len();
        let slack = size_of(normal);
        let mut reach = self.spot(0).fine_reach(normal, slack);
        for spot in &self.lists.spots {
            reach = reach.and(&spot.fine_reach(normal, slack));
        }
        reach
    }
}

/// The least whole distance at which a corner is not in front of the plane with this plane's normal.
fn distance_of(corner: &Corner, along: &Plane) -> i64
    requires { HasSmallCoordinates corner.now }
    ensures { IsLeastDistance (along.now.nx ∷ along.now.ny ∷ along.now.nz ∷ []) (corner.now ∷ []) result }
{
    least_distance([along.nx, along.ny, along.nz], &[*corner])
}

/// Whether a corner is strictly behind a plane: by the whole points near it, in 64 bits, or by itself where these do not
/// tell.
fn is_behind(spot: &Spot, corner: &Corner, plane: &Plane) -> bool
    requires spot { IsSpotOf corner.now spot.now }
    requires weight { pos 0 <ℤ corner.now.w }
    ensures { IsTrue result ↔ IsBehind plane.now corner.now }
{
    let _ = &plane.nx;
    let normal = plane.normal();
    let least = spot.least(&normal);
    if least >= plane.d {
        return false;
    }
    if spot.greatest_from(least, &normal) < plane.d {
        return true;
    }
    lies_behind(corner, plane)
}

/// Whether it is strictly in front, told in the same way.
fn is_ahead(spot: &Spot, corner: &Corner, plane: &Plane) -> bool
    requires spot { IsSpotOf corner.now spot.now }
    requires weight { pos 0 <ℤ corner.now.w }
    ensures { IsTrue result ↔ IsInFront plane.now corner.now }
{
    let _ = &plane.nx;
    let normal = plane.normal();
    let least = spot.least(&normal);
    if least > plane.d {
        return true;
    }
    if spot.greatest_from(least, &normal) <= plane.d {
        return false;
    }
    is_in_front(corner, plane)
}

/// Whether a corner is strictly behind a plane, by itself.
fn lies_behind(corner: &Corner, plane: &Plane) -> bool
    ensures { IsTrue result ↔ IsBehind plane.now corner.now }
{
    match corner.side(plane) {
        Ordering::Less => true,
        Ordering::Equal | Ordering::Greater => false,
    }
}

/// Whether a corner is strictly in front of a plane.
fn is_in_front(corner: &Corner, plane: &Plane) -> bool
    ensures { IsTrue result ↔ IsInFront plane.now corner.now }
{
    match corner.side(plane) {
        Ordering::Greater => true,
        Ordering::Equal | Ordering::Less => false,
    }
}
