//! Whether a face can stand in a file.

ghost use Rattle.std.specs.Prelude.{◌≡◌};
ghost use Rattle.std.specs.List.{list_all};
ghost use Rattle.qm_face_layout.specs.FacesLayout.{is_face_corner, is_face};

use crate::named_planes::named_plane;
use qm_face_layout::FaceRecord;
use qm_file::TreeFile;
use qm_geom::{Corner, Plane};

/// Whether a face has three corners or more, a leaf of the file's tree, and corners that are points.
#[tactic(auto, unfolding(qm_face_layout::specs::FacesLayout::is_face))]
pub(crate) fn is_face(file: &TreeFile, face: &FaceRecord) -> bool
    ensures { result ≡ is_face file.now face.now }
{
    face.corners.len() >= 3
        && face.leaf < file.tree.leaves()
        && are_corners(file.tree.all_planes(), file.bound, face.corners.as_slice())
}

/// Whether each corner is a point.
fn are_corners(planes: &[Plane], bound: u32, corners: &[[i64; 3]]) -> bool
    ensures { result ≡ list_all (is_face_corner planes.now bound) corners.now }
{
    corners
        .iter()
        .all(|corner| is_corner(planes, bound, corner))
}

/// Whether the three numbers of a corner name planes that meet in just one point.
#[tactic(auto, unfolding(qm_face_layout::specs::FacesLayout::is_face_corner))]
fn is_corner(planes: &[Plane], bound: u32, corner: &[i64; 3]) -> bool
    ensures { result ≡ is_face_corner planes.now bound corner.now }
{
    let [own, before, next] = *corner;
    let Some(own) = named_plane(planes, bound, own) else {
        return false;
    };
    let Some(before) = named_plane(planes, bound, before) else {
        return false;
    };
    let Some(next) = named_plane(planes, bound, next) else {
        return false;
    };
    Corner::of(&own, &before, &next).is_some()
}
