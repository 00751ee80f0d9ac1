//! The laws of windings that later layers cite, for any list of edges. Each function does nothing: its
//! clause is the law.

ghost use Rattle.std.specs.Prelude.{ℕ, ◌<◌, length, ◌↔◌};
ghost use Rattle.qm_space.specs.Point.{Point};
ghost use Rattle.qm_space.specs.Plane.{Plane, flipped};
ghost use Rattle.qm_convex.specs.Winding.{Winding, corner_at, IsConvex, IsInRegion};
ghost use Rattle.qm_convex.specs.Sides.{HasNoneInFront, HasSomeInFront, IsWhollyInFront, LiesIn};
ghost use Rattle.qm_convex.specs.Sides.{HasNoCornerInFront, HasNoCornerBehind, HasCornerInFront, HasCornersOn};
ghost use Rattle.qm_convex.specs.Cut.{IsPartInFront, IsParted};
ghost use Rattle.qm_convex.specs.Rotation.{IsSameRotated};
ghost use Rattle.qm_convex.specs.Vertex.{HasVerticesAsCorners};
ghost use Rattle.qm_convex.specs.World.{IsInWorld};
ghost use Rattle.qm_space.specs.Cube.{IsInClosedCube};

/// The central law: a plane's value is at most 0 on the whole winding exactly where it is at most 0 at
/// each corner.
pub fn none_in_front()
    ensures { (v : Winding) (g : Plane) → IsConvex v → HasNoneInFront v g ↔ HasNoCornerInFront v g }
{}

/// A winding has a point in front of a plane exactly where it has a corner there.
pub fn some_in_front()
    ensures { (v : Winding) (g : Plane) → IsConvex v → HasSomeInFront v g ↔ HasCornerInFront v g }
{}

/// The strict form of the central law: each point is in front of a plane exactly where no corner is
/// behind it and some corner is in front of it.
pub fn wholly_in_front()
    ensures { (v : Winding) (g : Plane) → IsConvex v →
        IsWhollyInFront v g ↔ (HasNoCornerBehind v g × HasCornerInFront v g) }
{}

/// A winding lies in a plane exactly where its corners are on it.
pub fn lies_in()
    ensures { (v : Winding) (g : Plane) → IsConvex v → LiesIn v g ↔ HasCornersOn v g }
{}

/// No winding is empty.
pub fn has_a_point()
    ensures { (v : Winding) → IsConvex v → (p : Point) × IsInRegion v p }
{}

/// A plane with points of a winding on both sides parts it in two; and the parts on both sides, with
/// what is on the plane, make up the winding.
pub fn parted()
    ensures in_two { (v : Winding) (g : Plane) → IsConvex v → HasSomeInFront v g → HasSomeInFront v (flipped g) →
        (in_front : Winding) × (behind : Winding) × IsParted v g in_front behind }
    ensures made_up { (v : Winding) (g : Plane) (in_front behind : Winding) →
        IsPartInFront in_front v g → IsPartInFront behind v (flipped g) → IsParted v g in_front behind }
{}

/// A winding read from another of its edges on is the same winding.
pub fn rotated()
    ensures { (v : Winding) (i : ℕ) → IsConvex v → i < length v.edges → IsSameRotated v i }
{}

/// The corners of a winding are exactly its vertices, at least three, no three neighbours on a line.
pub fn vertices()
    ensures { (v : Winding) → IsConvex v → HasVerticesAsCorners v }
{}

/// The corners of a winding inside the world's cube are in the cube or on its border.
pub fn in_closed_cube()
    ensures { (v : Winding) (i : ℕ) → IsInWorld v → i < length v.edges → IsInClosedCube (corner_at v i) }
{}
