ghost use Rattle.std.specs.Prelude.{◌≡◌, ◌<◌, ◌+◌, ◌-◌, ◌^◌, [], ◌∷◌, length, IfOk, OnErr, All};
ghost use Rattle.qm_grammar.specs.Valid.{IsValidFace};
ghost use Rattle.qm_solids.specs.InBook.{solid_at, solid_in, solids_in, IsKeptIn, IsBookOf};
ghost use Rattle.qm_solids.specs.Contents.{HasContents};
ghost use Rattle.qm_solids.specs.Holding.{IsFull};
ghost use Rattle.qm_drawn.specs.Planes.{planes_of_brush};
ghost use Rattle.qm_blocking.specs.Moved.{IsMovingBox};
ghost use Rattle.qm_blocking.specs.Blocking.{solid_part};
ghost use Rattle.qm_blocking.specs.MovedSolids.{moved_planes_of_brush};
ghost use Rattle.qm_brush.specs.inner.MovedAdded.{IsMovedAdded};
ghost use Rattle.qm_brush.specs.inner.Added.{IsBrushAdded};
ghost use Rattle.qm_brush.specs.inner.Entered.{AreFirstEntered};
ghost use Rattle.qm_brush.specs.inner.Entries.{solid_of_entry, IsWithin};

use crate::entering::enter_faces;
use crate::entry::Entry;
use crate::fullness::is_full;
use crate::moving::enter_moved_faces;
use crate::sides::is_in_front_of_none;
use qm_contents::{Contents, stronger};
use qm_geom::{Cuboid, Plane, PlaneBook, Point};
use qm_mapfile::Brush;
use qm_solids::FaceRef;
use std::alloc::{AllocError, Global};
use std::marker::Model;

/// Brushes in the order of the text, by the faces that they have in a book of planes: the drawn ones of a map's world, or its
/// obstacles behind moved planes.
#[derive(Drop)]
pub struct BrushList {
    faces: Vec<FaceRef>,
    entries: Vec<Entry>,
}

impl Model for BrushList {
    ghost use Rattle.std.specs.Prelude.{List};
    ghost use Rattle.qm_solids.specs.InBook.{BookSolid};
    ghost use Rattle.qm_brush.specs.inner.Entries.{solids_of_entries, AreWithin};

    ghost Value = { List BookSolid };

    ghost view = { λ list. solids_of_entries list.faces.items list.entries.items };

    ghost invariant = { λ list. AreWithin list.faces.items list.entries.items };
}

impl BrushList {
    /// No brush; it takes no memory.
    pub(crate) fn new(alloc: Global) -> BrushList
        ensures { result ≡ [] }
    {
        BrushList {
            faces: Vec::new(alloc),
            entries: Vec::new(alloc),
        }
    }

    /// Adds a brush. The planes of its faces enter the book, in their order; where memory runs out, first ones of them.
    pub(crate) fn add(
        &mut self,
        alloc: Global,
        brush: &Brush,
        contents: Contents,
        book: &mut PlaneBook,
    ) -> Result<(), AllocError>
        requires valid { All IsValidFace brush.now.faces }
        requires room { length book.old + length brush.now.faces < 2 ^ 32 - 1 }
        ensures ok { IfOk result (λ _. IsBrushAdded brush.now contents self.old self.new book.old book.new) }
        ensures err { OnErr result (AreFirstEntered book.old (planes_of_brush brush.now) book.new) }
    {
        let start = self.faces.len();
        enter_faces(&mut self.faces, brush.faces.as_slice(), book)?;
        let end = self.faces.len();
        let full = is_full(alloc, &self.faces[start..end], book.planes())?;
        self.entries.push(Entry {
            contents,
            full,
            start,
            end,
        })?;
        Ok(())
    }

    /// Adds a full brush as a solid one, whatever its name, behind its planes moved outward by a box. These planes enter the
    /// book, in their order; where memory runs out, first ones of them.
    pub(crate) fn add_moved(
        &mut self,
        brush: &Brush,
        cuboid: &Cuboid,
        book: &mut PlaneBook,
    ) -> Result<(), AllocError>
        requires valid { All IsValidFace brush.now.faces }
        requires moving { IsMovingBox cuboid.now }
        requires full { IsFull (solid_part brush.now) }
        requires room { length book.old + length brush.now.faces < 2 ^ 32 - 1 }
        ensures ok { IfOk result (λ _. IsMovedAdded cuboid.now brush.now self.old self.new book.old book.new) }
        ensures err { OnErr result (AreFirstEntered book.old (moved_planes_of_brush cuboid.now brush.now) book.new) }
    {
        let start = self.faces.len();
        enter_moved_faces(&mut self.faces, brush.faces.as_slice(), cuboid, book)?;
        let end = self.faces.len();
        // Of a book it is known from its length that its planes are in lowest terms and each there once.
        let _ = book.len();
        self.entries.push(Entry {
            contents: Contents::Solid,
            full: true,
            start,
            end,
        })?;
        Ok(())
    }

    /// How many brushes there are.
    pub fn len(&self) -> u64
        ensures { result ≡ length self.now }
    {
        self.entries.len() as u64
    }

    /// Whether a brush is full.
    pub fn full(&self, i: u64) -> bool
        requires { i < length self.now }
        ensures { result ≡ (solid_at self.now i).full }
    {
        self.entries[i as usize].full
    }

    /// What fills a brush.
    pub fn contents(&self, i: u64) -> Contents
        requires { i < length self.now }
        ensures { result ≡ (solid_at self.now i).contents }
    {
        self.entries[i as usize].contents
    }

    /// The faces of a brush, in the order of the text, so that a place among them is a number of 32 bits.
    pub fn faces(&self, i: u64) -> &[FaceRef]
        requires { i < length self.now }
        ensures are { result.now ≡ (solid_at self.now i).faces }
        ensures few { length result.now < 2 ^ 32 }
    {
        let entry = self.entries[i as usize];
        &self.faces[entry.start..entry.end]
    }

    /// What the brushes make of a point: the strongest contents of the full ones that hold it, else empty. The book is
    /// the one that was filled with their planes.
    pub fn contents_at(&self, at: &Point, book: &PlaneBook) -> Contents
        requires filled { IsBookOf book.now self.now }
        ensures { HasContents (solids_in book.now self.now) at.now result }
    {
        let faces = self.faces.as_slice();
        let planes = book.planes();
        let mut found = Contents::Empty;
        for entry in &self.entries {
            found = stronger(found, given_contents(faces, entry, at, planes));
        }
        found
    }
}

/// What one brush makes of a point.
fn given_contents(faces: &[FaceRef], entry: &Entry, at: &Point, planes: &[Plane]) -> Contents
    requires within { IsWithin faces.now entry.now }
    requires kept { IsKeptIn planes.now (solid_of_entry faces.now entry.now) }
    ensures { HasContents (solid_in planes.now (solid_of_entry faces.now entry.now) ∷ []) at.now result }
{
    if !entry.full {
        return Contents::Empty;
    }
    if is_in_front_of_none(&faces[entry.start..entry.end], at, planes) {
        entry.contents
    } else {
        Contents::Empty
    }
}
