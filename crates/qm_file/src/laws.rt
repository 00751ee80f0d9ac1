//! What holds of tree files, whatever is written or read.

ghost use Rattle.std.specs.Prelude.{◌≡◌, ◌<◌, ◌≤◌, ◌↔◌, ◌+◌, ◌++◌, ◌^◌, ℕ, Bool, List, Option, length, nat_lt, IsTrue, if◌then◌else◌};
ghost use Rattle.qm_space.specs.Plane.{Plane};
ghost use Rattle.qm_space.specs.Reduced.{IsReduced, leads_positive};
ghost use Rattle.qm_partition.specs.declared.node.Node.{Node};
ghost use Rattle.qm_partition.specs.declared.node.Leaf.{Leaf};
ghost use Rattle.qm_partition.specs.Partition.{Partition};
ghost use Rattle.qm_partition.specs.Tree.{Tree};
ghost use Rattle.qm_partition.specs.Numbering.{AreNumbered};
ghost use Rattle.qm_formats.specs.Layout.{got, bad};
ghost use Rattle.qm_formats.specs.Fields.{AreBytes};
ghost use Rattle.qm_formats.specs.FileParts.{FileFaultKind, is_plane, short, too_long};
ghost use Rattle.qm_formats.specs.Exact.{IsExact};
ghost use Rattle.qm_formats.specs.FileLayout.{are_numbered, file_layout, file_bytes, file_limit, read_file, IsFileOf};
ghost use Rattle.qm_formats.specs.TreeFile.{TreeFile, IsValidFile};
ghost use Rattle.qm_formats.specs.Upgraded.{upgraded};
ghost use Rattle.qm_formats.specs.FirstVersion.{first_version, first_version_bytes};
ghost use Rattle.qm_formats.specs.TreeFaults.{IsFaultOfFileBytes};

/// What is read in a file of either version stands there and can stand there, and the other way round.
pub fn exact_layout()
    ensures { IsExact file_layout }
{}

/// A file is read in bytes exactly where they are those of a valid file, and no more than are read.
pub fn read_tree_file()
    ensures { (bytes : List ℕ) (file : TreeFile) → AreBytes bytes → (read_file bytes ≡ got file (length bytes) ↔ IsFileOf bytes file) }
{}

/// The fault that reading gives is the first in the order of the parts, in words.
pub fn first_tree_fault()
    ensures { (bytes : List ℕ) (fault : FileFaultKind) (place : ℕ) → AreBytes bytes → (read_file bytes ≡ bad fault place ↔ IsFaultOfFileBytes bytes fault place) }
{}

/// No two tree files have the same bytes.
pub fn one_tree_file()
    ensures { (file other : TreeFile) → IsValidFile file → IsValidFile other → file_bytes file ≡ file_bytes other → length (file_bytes file) ≤ file_limit → file ≡ other }
{}

/// What is left of a valid file that is cut off is short where it ends, or too long.
pub fn cut_file()
    ensures { (file : TreeFile) (front behind : List ℕ) → IsValidFile file → file_bytes file ≡ front ++ behind → 0 < length behind → read_file front ≡ (if nat_lt file_limit (length front) then bad too_long file_limit else bad short (length front)) }
{}

/// In version 2 a valid file is valid, one of version 1 has eight bytes more, and one of version 2 stays as it is.
pub fn upgraded_file()
    ensures { (file : TreeFile) → IsValidFile file → IsValidFile (upgraded file) × ((upgraded file).version ≡ 2) × (file.version ≡ 1 → length (file_bytes (upgraded file)) ≡ length (file_bytes file) + 8) × (file.version ≡ 2 → upgraded file ≡ file) }
{}

/// The bytes of a file of version 1 are those of that version by itself.
pub fn first_version_file()
    ensures { (tree : Tree) (rows : Option (List (List Bool))) → file_bytes (first_version tree rows) ≡ first_version_bytes tree rows }
{}

/// A plane passes its test where it is in lowest terms and leads with a positive component.
pub fn reduced_planes()
    ensures { (h : Plane) → IsTrue (is_plane h) ↔ (IsReduced h × IsTrue (leads_positive h)) }
{}

/// Nodes pass the test of their numbers where they are those of a tree with any leaves, one more than nodes.
pub fn numbered_nodes()
    ensures { (nodes : List Node) (leaves : List Leaf) → length leaves ≡ length nodes + 1 → (IsTrue (are_numbered nodes) ↔ ((shape : Partition) × AreNumbered shape nodes leaves)) }
{}
