ghost use Rattle.std.specs.Prelude.{◌≡◌, [], ◌∷◌, ◌++◌, IfOk, OnOk};
ghost use Rattle.std.specs.List.{AllZip};
ghost use Rattle.qm_space.specs.Cube.{cube_walls};
ghost use Rattle.qm_convex.specs.World.{IsCubeFace};
ghost use Rattle.qm_convex.specs.inner.Square.{square};

use crate::axial_cell::Opposites;
use crate::polygon::Polygon;
use crate::walls::{mirrored, wall_x, wall_y, wall_z};
use crate::winding::Winding;
use qm_geom::Plane;
use std::alloc::{AllocError, Global};

impl Winding {
    /// The six faces of the world's cube, seen from inside, in the order of the walls.
    pub fn faces(alloc: Global) -> Result<Vec<Winding>, AllocError>
        ensures { IfOk result (λ faces. AllZip IsCubeFace faces.items cube_walls) }
    {
        let x = wall_x();
        let y = wall_y();
        let z = wall_z();
        let mut faces = Vec::new(alloc);
        add_face(&mut faces, &x, &y, &z)?;
        add_face(&mut faces, &y, &z, &x)?;
        add_face(&mut faces, &z, &x, &y)?;
        add_face(&mut faces, &mirrored(&x), &z, &y)?;
        add_face(&mut faces, &mirrored(&y), &x, &z)?;
        add_face(&mut faces, &mirrored(&z), &y, &x)?;
        Ok(faces)
    }
}

/// Adds the face on a wall: its square between two others and these mirrored.
fn add_face(
    faces: &mut Vec<Winding>,
    wall: &Plane,
    first: &Plane,
    second: &Plane,
) -> Result<(), AllocError>
    requires { IsCubeFace (square wall.now first.now second.now) wall.now }
    ensures { OnOk result (faces.new.items ≡ faces.old.items ++ square wall.now first.now second.now ∷ []) }
{
    let polygon = Polygon::parallelogram(
        *faces.allocator(),
        wall,
        &Opposites::of_wall(first),
        &Opposites::of_wall(second),
    )?;
    faces.push(Winding::in_world(polygon))?;
    Ok(())
}
