//! The bounds of some planes across the axes.

ghost use Rattle.std.specs.Prelude.{◌≡◌, neg_ℤ, IfOk, IsTrue, ◌↔◌};
ghost use Rattle.std.specs.List.{AllZip};
ghost use Rattle.qm_space.specs.Bounds.{extent};
ghost use Rattle.qm_space.specs.Cube.{cube_walls};
ghost use Rattle.qm_space.specs.Reduced.{IsReduced};
ghost use Rattle.qm_convex.specs.Section.{HasSameNormal};
ghost use Rattle.qm_half_spaces.specs.inner.AxialPlanes.{IsBoundAmong, IsFarther};

use qm_geom::Plane;
use qm_space::WORLD_EXTENT;
use std::alloc::{AllocError, Global};

/// Of the cube's walls and some planes, those that lie farthest in across each axis, in the order of the walls.
/// Any of them would do: the farther in they lie, the less is left to cut.
pub(crate) fn axial_bounds(alloc: Global, planes: &[Plane]) -> Result<Vec<Plane>, AllocError>
    ensures { IfOk result (λ bounds. AllZip (IsBoundAmong planes.now) bounds.items cube_walls) }
{
    let mut bounds = Vec::with_capacity(alloc, 6)?;
    bounds.push(farthest_in(&wall(1, 0, 0), planes))?;
    bounds.push(farthest_in(&wall(0, 1, 0), planes))?;
    bounds.push(farthest_in(&wall(0, 0, 1), planes))?;
    bounds.push(farthest_in(&wall(-1, 0, 0), planes))?;
    bounds.push(farthest_in(&wall(0, -1, 0), planes))?;
    bounds.push(farthest_in(&wall(0, 0, -1), planes))?;
    Ok(bounds)
}

/// Of a wall and the planes that have its normal, the one that lies farthest in.
fn farthest_in(wall: &Plane, planes: &[Plane]) -> Plane
    ensures { IsBoundAmong planes.now result wall.now }
{
    let mut bound = *wall;
    for plane in planes {
        if is_farther_in(plane, &bound) {
            bound = *plane;
        }
    }
    bound
}

/// Whether a plane has the normal of another, and lies farther in.
fn is_farther_in(plane: &Plane, bound: &Plane) -> bool
    ensures { IsTrue result → IsFarther plane.now bound.now }
{
    let _ = &plane.d;
    let _ = &bound.d;
    has_normal_of(plane, bound) && plane.d > bound.d
}

/// Whether two planes have one normal.
fn has_normal_of(one: &Plane, other: &Plane) -> bool
    ensures { IsTrue result ↔ HasSameNormal one.now other.now }
{
    one.nx == other.nx && one.ny == other.ny && one.nz == other.nz
}

/// The wall of the cube with a normal along an axis.
fn wall(nx: i32, ny: i32, nz: i32) -> Plane
    requires { IsReduced (record { nx = nx; ny = ny; nz = nz; d = neg_ℤ extent }) }
    ensures { result ≡ record { nx = nx; ny = ny; nz = nz; d = neg_ℤ extent } }
{
    Plane {
        nx,
        ny,
        nz,
        d: -i64::from(WORLD_EXTENT),
    }
}
