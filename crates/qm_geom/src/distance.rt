ghost use Rattle.std.specs.Prelude.{◌≡◌, ◌<◌, ◌≤◌, ◌*◌, ◌^◌, pos, unsigned_abs, length};
ghost use Rattle.std.specs.List.{All};
ghost use Rattle.qm_space.specs.Plane.{value};
ghost use Rattle.qm_space.specs.LeastDistance.{plane_at_distance, IsComponent, IsLeastDistance};
ghost use Rattle.qm_space.specs.Coordinates.{HasSmallCoordinates};

use crate::corner::Corner;

/// The least whole distance at which no corner is in front of the plane with this normal.
pub fn least_distance(normal: [i32; 3], corners: &[Corner]) -> i64
    requires normal_small { All IsComponent normal }
    requires some_corner { 0 < length corners.now }
    requires corners_small { All HasSmallCoordinates corners.now }
    ensures { IsLeastDistance normal corners.now result }
{
    let mut least = corners[0].least_distance(normal);
    for corner in corners {
        least = least.max(corner.least_distance(normal));
    }
    least
}
