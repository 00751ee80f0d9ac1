ghost use Rattle.std.specs.Prelude.{◌≡◌, ◌↔◌, ◌+◌, ◌-◌, ◌^◌, ◌<◌, ◌≤◌, min, length, None, IfSome, List, ◌++◌, ◌∷◌, [], map, Option, IfOk, OnOk, IsTrue, All};
ghost use Rattle.qm_space.specs.Plane.{Plane, flipped};
ghost use Rattle.qm_solids.specs.Solid.{Solid};
ghost use Rattle.qm_contents.specs.declared.contents.Contents.{Contents};
ghost use Rattle.qm_solids.specs.InBook.{BookSolid, solid_at, solid_in, solids_in, IsBookOf};
ghost use Rattle.qm_split.specs.Pieces.{solid_of_contender, IsContender};
ghost use Rattle.qm_split.specs.CellFragments.{pieces_of, IsAtMostKnown};
ghost use Rattle.qm_split.specs.inner.Parts.{IsWindingInCell, IsPartIn, part_count};
ghost use Rattle.qm_split.specs.inner.CubeParts.{ArePartsOfCube};
ghost use Rattle.qm_split.specs.inner.Gathered.{IsGathered, HasFewer, Keeps, Raises, is_stronger_than};
ghost use Rattle.qm_split.specs.inner.Ranked.{IsLeastRank, IsWindingOfSome};

use crate::beside::parts_in_cube;
use crate::contender::{Contender, Part};
use crate::in_cube::part_in_cube;
use crate::rank::{Rank, first_of};
use qm_brush::BrushList;
use qm_contents::{Contents, stronger};
use qm_geom::{Plane, PlaneBook};
use qm_wind::Winding;
use std::alloc::{AllocError, Global};
use std::thread::Threads;

/// A list of contenders gives room back where it has more than so many times what it needs.
const SPARE: usize = 8;

/// What is known of a cell while solids are looked at one after another: the strongest contents of those that contain it,
/// and the stronger ones that have a part of a face in it.
#[derive(Drop)]
pub(crate) struct Gathering {
    pub(crate) strongest: Option<Contents>,
    pub(crate) contenders: Vec<Contender>,
}

/// What is known of what a cell has in front of a plane, and behind it.
#[derive(Drop)]
pub(crate) struct Gatherings {
    pub(crate) front: Gathering,
    pub(crate) back: Gathering,
}

impl Gathering {
    /// Before the first solid, where some contents are known, with room for so many contenders: a list that grows is moved, and
    /// for each move threads wait for one another.
    pub(crate) fn with_room(
        alloc: Global,
        strongest: Option<Contents>,
        room: usize,
    ) -> Result<Gathering, AllocError>
        ensures gathered { IfOk result (λ gathering. (book cell : List Plane) → IsGathered book cell strongest [] gathering) }
        ensures count { IfOk result (λ gathering. pieces_of gathering.contenders.items ≡ 0) }
    {
        Ok(Gathering {
            strongest,
            contenders: Vec::with_capacity(alloc, room)?,
        })
    }

    /// The same, without the room to spare where few contenders came, so that a row of cells that are cut off one after another does
    /// not take room for all contenders each.
    fn within_room(self) -> Gathering
        ensures { (result.strongest ≡ self.strongest) × (result.contenders.items ≡ self.contenders.items) }
    {
        let mut gathering = self;
        if gathering.contenders.capacity() / SPARE > gathering.contenders.len() {
            gathering.contenders.shrink_to_fit();
        }
        gathering
    }

    /// With one solid more, by what it is to the cell.
    pub(crate) fn add(&mut self, part: Part) -> Result<(), AllocError>
        ensures gathered { OnOk result ((book cell : List Plane) (before : Option Contents) (done : List Solid) (solid : Solid) →
            IsGathered book cell before done self.old → IsPartIn book cell solid part →
            IsGathered book cell before (done ++ solid ∷ []) self.new) }
        ensures count { OnOk result (pieces_of self.new.contenders.items ≤ pieces_of self.old.contenders.items + part_count part) }
    {
        match part {
            Part::Kept(contender) => self.keep(contender),
            Part::Containing(contents) => {
                self.raise(contents);
                Ok(())
            }
            Part::Outside => Ok(()),
        }
    }

    /// Keeps a solid that has a part of a face in the cell, unless contents as strong are known.
    fn keep(&mut self, contender: Contender) -> Result<(), AllocError>
        ensures { OnOk result (Keeps self.old contender self.new) }
    {
        if !is_reached(self.strongest, contender.contents) {
            self.contenders.push(contender)?;
        }
        Ok(())
    }

    /// Notes contents that fill the cell, and gives up solids that are not stronger.
    fn raise(&mut self, contents: Contents)
        ensures { Raises self.old contents self.new }
    {
        if !is_reached(self.strongest, contents) {
            self.strongest = Some(contents);
            self.contenders
                .retain(|contender| is_stronger_than(contents, contender));
        }
    }

    /// For the whole cube, of the brushes of a list.
    pub(crate) fn in_cube(
        alloc: Global,
        list: &BrushList,
        book: &PlaneBook,
    ) -> Result<Gathering, AllocError>
        requires filled { IsBookOf book.now list.now }
        ensures { IfOk result (IsGathered book.now [] None (solids_in book.now list.now)) }
    {
        let mut gathering = Gathering::with_room(alloc, None, list.len() as usize)?;
        for i in 0..list.len() {
            gathering.add(brush_in_cube(alloc, list, i, book)?)?;
        }
        Ok(gathering)
    }

    /// For the whole cube, of the brushes of a list, which are looked at in halves beside one another.
    pub(crate) fn in_cube_halves<R: Threads + Sync>(
        rt: &R,
        alloc: Global,
        list: &BrushList,
        book: &PlaneBook,
    ) -> Result<Gathering, AllocError>
        requires filled { IsBookOf book.now list.now }
        ensures { IfOk result (IsGathered book.now [] None (solids_in book.now list.now)) }
    {
        let parts = parts_in_cube(rt, alloc, list, book)?;
        Gathering::of_parts(alloc, parts)
    }

    /// For the whole cube, by what the brushes of a list are to it, in order.
    fn of_parts(alloc: Global, parts: Vec<Part>) -> Result<Gathering, AllocError>
        ensures { IfOk result (λ gathering. (book : List Plane) (list : List BookSolid) →
            IsBookOf book list → length parts.items ≡ length list → ArePartsOfCube book list 0 parts.items →
            IsGathered book [] None (solids_in book list) gathering) }
    {
        let mut gathering = Gathering::with_room(alloc, None, parts.len())?;
        for part in parts {
            gathering.add(part)?;
        }
        Ok(gathering)
    }

    /// The rank of the piece that comes first.
    pub(crate) fn least(&self) -> Option<Rank>
        ensures { (book cell : List Plane) → All (IsContender book cell) self.now.contenders.items → IsLeastRank self.now.contenders.items result }
    {
        let mut least = None;
        for contender in &self.contenders {
            least = Some(first_of(least, contender.least));
        }
        least
    }

    /// How many pieces there are, or the greatest number where there are more.
    pub(crate) fn count(&self) -> u64
        ensures { result ≡ min (pieces_of self.now.contenders.items) (2 ^ 64 - 1) }
    {
        let mut count = 0;
        for contender in &self.contenders {
            count = sum_or_most(count, contender.body.pieces.len() as u64);
        }
        count
    }

    /// The winding of a piece on a plane, if it is the plane of the piece that comes first.
    pub(crate) fn winding_on(&self, plane: &Plane) -> Option<&Winding>
        ensures { IfSome result (λ w. IsWindingOfSome self.now.contenders.items plane.now w.now) }
    {
        let least = self.least()?;
        for contender in &self.contenders {
            if contender.least.number == least.number {
                return contender.winding_on(plane);
            }
        }
        None
    }

    /// For a plane, and a winding that lies on it in the cell.
    pub(crate) fn split(self, plane: &Plane, section: &Winding) -> Result<Gatherings, AllocError>
        ensures front { IfOk result (λ halves. (book cell : List Plane) →
            All (IsContender book cell) self.contenders.items → IsWindingInCell cell plane.now section.now →
            IsGathered book (cell ++ plane.now ∷ []) self.strongest (map solid_of_contender self.contenders.items) halves.front) }
        ensures back { IfOk result (λ halves. (book cell : List Plane) →
            All (IsContender book cell) self.contenders.items → IsWindingInCell cell plane.now section.now →
            IsGathered book (cell ++ flipped plane.now ∷ []) self.strongest (map solid_of_contender self.contenders.items) halves.back) }
        ensures front_count { IfOk result (λ halves. (book cell : List Plane) →
            All (IsContender book cell) self.contenders.items → HasFewer self.contenders.items plane.now halves.front) }
        ensures back_count { IfOk result (λ halves. (book cell : List Plane) →
            All (IsContender book cell) self.contenders.items → HasFewer self.contenders.items plane.now halves.back) }
    {
        let alloc = *self.contenders.allocator();
        let Gathering {
            strongest,
            contenders,
        } = self;
        let room = contenders.len();
        let mut front = Gathering::with_room(alloc, strongest, room)?;
        let mut back = Gathering::with_room(alloc, strongest, room)?;
        for contender in contenders {
            let parts = contender.split(plane, section)?;
            front.add(parts.front)?;
            back.add(parts.back)?;
        }
        Ok(Gatherings {
            front: front.within_room(),
            back: back.within_room(),
        })
    }
}

/// What a brush of a list is to the cube.
pub(crate) fn brush_in_cube(
    alloc: Global,
    list: &BrushList,
    i: u64,
    book: &PlaneBook,
) -> Result<Part, AllocError>
    requires filled { IsBookOf book.now list.now }
    requires in_range { i < length list.now }
    ensures { IfOk result (IsPartIn book.now [] (solid_in book.now (solid_at list.now i))) }
{
    if !list.full(i) {
        return Ok(Part::Outside);
    }
    part_in_cube(alloc, list.contents(i), list.faces(i), book)
}

/// Whether contents are known that are at least as strong.
fn is_reached(strongest: Option<Contents>, contents: Contents) -> bool
    ensures { IsTrue result ↔ IsAtMostKnown strongest contents }
{
    match strongest {
        None => false,
        Some(known) => stronger(contents, known) == known,
    }
}

/// Whether a contender is stronger than contents.
fn is_stronger_than(contents: Contents, contender: &Contender) -> bool
    ensures { result ≡ is_stronger_than contents contender.now }
{
    stronger(contender.contents, contents) != contents
}

/// The sum, or the greatest number where it is more.
fn sum_or_most(first: u64, second: u64) -> u64
    ensures { result ≡ min (first + second) (2 ^ 64 - 1) }
{
    first.saturating_add(second)
}
