//! What holds of sections of faces, whatever is written or read.

ghost use Rattle.std.specs.Prelude.{◌≡◌, ◌↔◌, ℕ, List, length};
ghost use Rattle.qm_formats.specs.Layout.{bad, got};
ghost use Rattle.qm_formats.specs.Fields.{AreBytes};
ghost use Rattle.qm_formats.specs.Exact.{IsExact};
ghost use Rattle.qm_formats.specs.FileParts.{FileFaultKind};
ghost use Rattle.qm_formats.specs.TreeFile.{TreeFile};
ghost use Rattle.qm_face_layout.specs.declared.face_record.FaceRecord.{FaceRecord};
ghost use Rattle.qm_face_layout.specs.FaceFaults.{IsFaultOfFaceBytes};
ghost use Rattle.qm_face_layout.specs.FacesLayout.{AreFacesBytes, faces_layout, faces_bytes, read_faces};

/// What is read in a section stands there and can stand there, and the other way round.
pub fn exact_faces_layout()
    ensures { (file : TreeFile) → IsExact (faces_layout file) }
{}

/// The bytes of faces do not depend on the file.
pub fn own_faces_bytes()
    ensures { (file : TreeFile) (faces : List FaceRecord) → (faces_layout file).bytes_of faces ≡ faces_bytes faces }
{}

/// Faces are read in bytes just where the bytes are those of faces that can stand there.
pub fn read_face_section()
    ensures { (file : TreeFile) (bytes : List ℕ) (faces : List FaceRecord) → AreBytes bytes → (read_faces file bytes ≡ got faces (length bytes) ↔ AreFacesBytes file bytes faces) }
{}

/// The fault that reading gives is the first in the order of the bytes, in words.
pub fn first_faces_fault()
    ensures { (file : TreeFile) (bytes : List ℕ) (fault : FileFaultKind) (place : ℕ) → AreBytes bytes → (read_faces file bytes ≡ bad fault place ↔ IsFaultOfFaceBytes file bytes fault place) }
{}
