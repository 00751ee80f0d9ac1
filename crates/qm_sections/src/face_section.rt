//! The section of faces.

ghost use Rattle.std.specs.Prelude.{◌≡◌, ◌<◌, ◌^◌, All, IfOk, length};
ghost use Rattle.qm_solids.specs.InBook.{solids_in, IsBookOf};
ghost use Rattle.qm_solid_tree.specs.GivesContents.{GivesContentsOrIsFilled};
ghost use Rattle.qm_contacts.specs.Contacts.{AreContacts};
ghost use Rattle.qm_face_sections.specs.CutTrees.{HasSurfaceOf};
ghost use Rattle.qm_sections.specs.PartsOfMap.{AreSurfaceParts};
ghost use Rattle.qm_sections.specs.inner.SectionsThatFit.{IsFaceSectionThatFits};
ghost use Rattle.qm_sections.specs.inner.SmallPieces.{IsSmallPiece};

use crate::section_of_bytes::section_of_bytes;
use crate::surface_parts::SurfaceParts;
use qm_face_records::encode;
use qm_faces::{FacePiece, faces};
use qm_file::Section;
use qm_mapfile::MapFile;
use qm_tree::Tree;
use std::alloc::{AllocError, Global};

/// The kind of the section of faces.
const FACES: u8 = 4;

/// The section of the faces of a map by a tree, cut from these parts.
pub(crate) fn face_section(
    alloc: Global,
    map: &MapFile,
    tree: &Tree,
    parts: &SurfaceParts,
) -> Result<Section, AllocError>
    requires surface { HasSurfaceOf map.now tree.now }
    requires parts { AreSurfaceParts map.now tree.now parts.now }
    ensures { IfOk result (IsFaceSectionThatFits map.now tree.now) }
{
    planes_fit(tree);
    can_cut(map, tree, parts);
    let pieces = faces(alloc, &parts.list, &parts.book, tree, &parts.contacts)?;
    pieces_fit(&pieces);
    let bytes = encode(alloc, &pieces, &parts.book)?;
    Ok(section_of_bytes(FACES, bytes))
}

/// The parts of a map fit its tree. This does nothing: its clauses are what cutting asks of them.
fn can_cut(map: &MapFile, tree: &Tree, parts: &SurfaceParts)
    requires surface { HasSurfaceOf map.now tree.now }
    requires parts { AreSurfaceParts map.now tree.now parts.now }
    ensures planes { tree.now.planes ≡ parts.now.book }
    ensures filled { IsBookOf parts.now.book parts.now.list }
    ensures gives { GivesContentsOrIsFilled tree.now (solids_in parts.now.book parts.now.list) }
    ensures contacts { AreContacts tree.now parts.now.contacts }
{}

/// A tree has fewer planes than 2^32. This does nothing: its clause is what their count is.
fn planes_fit(tree: &Tree)
    ensures { length tree.now.planes < 2 ^ 32 }
{
    let _ = tree.planes();
}

/// The numbers of pieces have as many bits as there are for them. This changes nothing: its clause is what such numbers are.
fn pieces_fit(pieces: &[FacePiece])
    ensures { All IsSmallPiece pieces.now }
{
    for piece in pieces {
        piece_fits(piece);
    }
}

/// The same of one piece.
fn piece_fits(piece: &FacePiece)
    ensures { IsSmallPiece piece.now }
{
    numbers_fit(piece.leaf, piece.brush, piece.face);
}

/// Numbers are below what their bits can hold.
fn numbers_fit(leaf: u64, brush: u64, face: u32)
    ensures leaf { leaf < 2 ^ 64 }
    ensures brush { brush < 2 ^ 64 }
    ensures face { face < 2 ^ 32 }
{}
