//! What holds of the corners of faces, however they are found.

ghost use Rattle.std.specs.Prelude.{ℕ, ℤ, List};
ghost use Rattle.qm_space.specs.Plane.{Plane};
ghost use Rattle.qm_convex.specs.Winding.{Winding, IsConvex};
ghost use Rattle.qm_face_layout.specs.FaceCorners.{AreNumberedCorners};
ghost use Rattle.qm_face_corners.specs.TurnedCorners.{TurnTo};

/// The corners of a face turn to the side that it faces.
pub fn corners_turn()
    ensures { (planes : List Plane) (bound : ℕ) (w : Winding) (into : Plane) (corners : List (List ℤ)) → IsConvex w →
        (are : AreNumberedCorners planes bound w into corners) → TurnTo into w are.in_front are.first }
{}
