//! Planes by their numbers: those of a book, and the six walls of a cube.

ghost use Rattle.std.specs.Prelude.{◌≡◌, pos, neg_ℤ, slice_get};
ghost use Rattle.qm_space.specs.Plane.{plane_of};
ghost use Rattle.qm_space.specs.Reduced.{IsReduced};
ghost use Rattle.qm_face_layout.specs.PlaneNumbers.{walls_at, named_plane};

use qm_geom::Plane;

/// The plane of a number, where there is one: from 0 on one of these planes, and from -1 down a wall of the cube of this half
/// size.
pub fn named_plane(planes: &[Plane], bound: u32, number: i64) -> Option<Plane>
    ensures { result ≡ named_plane planes.now bound number }
{
    if number < 0 {
        return wall_at(bound, (-(number + 1)) as u64);
    }
    plane_at(planes, number as u64)
}

/// The plane at a place, where there is one.
fn plane_at(planes: &[Plane], place: u64) -> Option<Plane>
    ensures { result ≡ slice_get planes.now place }
{
    if place >= planes.len() as u64 {
        return None;
    }
    Some(planes[place as usize])
}

/// The wall at a place, turned inward: across x, y and z the low one and the high one.
pub(crate) fn wall_at(bound: u32, place: u64) -> Option<Plane>
    ensures { result ≡ slice_get (walls_at bound) place }
{
    match place {
        0 => Some(wall(bound, 1, 0, 0)),
        1 => Some(wall(bound, -1, 0, 0)),
        2 => Some(wall(bound, 0, 1, 0)),
        3 => Some(wall(bound, 0, -1, 0)),
        4 => Some(wall(bound, 0, 0, 1)),
        5 => Some(wall(bound, 0, 0, -1)),
        _ => None,
    }
}

/// The wall of a cube of this half size that lies across a direction, turned inward.
fn wall(bound: u32, nx: i32, ny: i32, nz: i32) -> Plane
    requires { IsReduced (plane_of nx ny nz (neg_ℤ (pos bound))) }
    ensures { result ≡ plane_of nx ny nz (neg_ℤ (pos bound)) }
{
    Plane {
        nx,
        ny,
        nz,
        d: -i64::from(bound),
    }
}
