ghost use Rattle.std.specs.Prelude.{◌≡◌};
ghost use Rattle.qm_space.specs.Cube.{mirrored, wall_x, wall_y, wall_z};

use qm_geom::Plane;
use qm_space::WORLD_EXTENT;

/// The distance of the walls whose normals lead along an axis.
const WALL_DISTANCE: i64 = -(WORLD_EXTENT as i64);

/// The face of the world's cube opposite to a wall.
pub(crate) fn mirrored(wall: &Plane) -> Plane
    ensures { result ≡ mirrored wall.now }
{
    Plane {
        nx: -wall.nx,
        ny: -wall.ny,
        nz: -wall.nz,
        d: wall.d,
    }
}

pub(crate) fn wall_x() -> Plane
    ensures { result ≡ wall_x }
{
    Plane {
        nx: 1,
        ny: 0,
        nz: 0,
        d: WALL_DISTANCE,
    }
}

pub(crate) fn wall_y() -> Plane
    ensures { result ≡ wall_y }
{
    Plane {
        nx: 0,
        ny: 1,
        nz: 0,
        d: WALL_DISTANCE,
    }
}

pub(crate) fn wall_z() -> Plane
    ensures { result ≡ wall_z }
{
    Plane {
        nx: 0,
        ny: 0,
        nz: 1,
        d: WALL_DISTANCE,
    }
}
