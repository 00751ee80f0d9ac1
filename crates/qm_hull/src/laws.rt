//! The laws of clip hulls, for any box. Each function does nothing: its clause is the law.

ghost use Rattle.std.specs.Prelude.{◌≡◌, All};
ghost use Rattle.qm_space.specs.Point.{Point};
ghost use Rattle.qm_space.specs.Plane.{IsBehind};
ghost use Rattle.qm_space.specs.Cuboid.{Cuboid};
ghost use Rattle.qm_mapfile.specs.declared.entity.MapFile.{MapFile};
ghost use Rattle.qm_solids.specs.Solid.{Solid};
ghost use Rattle.qm_solids.specs.Holding.{IsInside};
ghost use Rattle.qm_blocking.specs.Boxes.{IsInBoxAt};
ghost use Rattle.qm_blocking.specs.MovedSolids.{moved_solid};
ghost use Rattle.qm_formats.specs.TreeFile.{TreeFile};
ghost use Rattle.qm_hull_trees.specs.Hull.{IsHull};

/// A box that has a point strictly inside a solid is set strictly behind all the moved planes of that solid, wherever it is.
pub fn met_is_behind_moved_planes()
    ensures { (box : Cuboid) (solid : Solid) (x met : Point) → IsInBoxAt box x met → IsInside solid met →
        All (λ h. IsBehind h x) (moved_solid box solid).outward }
{}

/// A map has one hull for a box.
pub fn one_hull()
    ensures { (map : MapFile) (box : Cuboid) (file other : TreeFile) → IsHull map box file → IsHull map box other → file ≡ other }
{}
