ghost use Rattle.std.specs.Prelude.{◌≡◌, ℕ, ◌-◌, ◌^◌, ◌<◌, min, ◌++◌, ◌∷◌, List, [], IfOk, MatchOption};
ghost use Rattle.qm_space.specs.Plane.{Plane, flipped};
ghost use Rattle.qm_space.specs.Book.{plane_at};
ghost use Rattle.qm_solids.specs.Solid.{Solid};
ghost use Rattle.qm_solids.specs.Cells.{CellHasContents};
ghost use Rattle.qm_solids.specs.Least.{IsLeastCandidate};
ghost use Rattle.qm_solids.specs.InBook.{solids_in, IsBookOf};
ghost use Rattle.qm_solid_tree.specs.Division.{HasNoCandidate, front_of, back_of};
ghost use Rattle.qm_split.specs.CellPlanes.{planes_of_cell};
ghost use Rattle.qm_split.specs.CellFragments.{AreFragmentsOf, cell_of_fragments, piece_count, HasPointOn};
ghost use Rattle.qm_split.specs.SplitCounts.{IsCandidatePlane};
ghost use Rattle.qm_split.specs.inner.Parts.{IsWindingInCell};
ghost use Rattle.qm_split.specs.inner.Halves.{IsHalf};

use crate::cell::CellPlanes;
use crate::gathering::{Gathering, Gatherings};
use crate::in_cube::part_in_cube;
use crate::section::section_of_cell;
use qm_brush::BrushList;
use qm_contents::Contents;
use qm_geom::{Plane, PlaneBook};
use qm_wind::Winding;
use std::alloc::{AllocError, Global};
use std::thread::Threads;

/// The faces of full brushes inside one cell, with the strongest of the brushes that contain the cell.
#[derive(Drop)]
pub struct Fragments {
    cell: CellPlanes,
    gathering: Gathering,
}

/// What a cell has in front of a plane, and behind it.
#[derive(Drop)]
pub struct CellHalves {
    pub front: Fragments,
    pub back: Fragments,
}

impl Fragments {
    /// Of the whole cube. The book is the one that was filled with the brushes' planes.
    pub fn of(alloc: Global, list: &BrushList, book: &PlaneBook) -> Result<Fragments, AllocError>
        requires filled { IsBookOf book.now list.now }
        ensures { IfOk result (AreFragmentsOf (solids_in book.now list.now) book.now []) }
    {
        let _planes = book.len();
        let gathering = Gathering::in_cube(alloc, list, book)?;
        Ok(Fragments {
            cell: CellPlanes::new(alloc),
            gathering,
        })
    }

    /// The same, where the brushes are looked at in halves beside one another.
    pub fn of_halves<R: Threads + Sync>(
        rt: &R,
        alloc: Global,
        list: &BrushList,
        book: &PlaneBook,
    ) -> Result<Fragments, AllocError>
        requires filled { IsBookOf book.now list.now }
        ensures { IfOk result (AreFragmentsOf (solids_in book.now list.now) book.now []) }
    {
        let _planes = book.len();
        let gathering = Gathering::in_cube_halves(rt, alloc, list, book)?;
        Ok(Fragments {
            cell: CellPlanes::new(alloc),
            gathering,
        })
    }

    /// How many fragments the cell has, or the greatest number where there are more.
    pub fn len(&self) -> u64
        ensures { result ≡ min (piece_count self.now) (2 ^ 64 - 1) }
    {
        self.gathering.count()
    }

    /// The number of the plane that parts the cell next. `None` exactly where no plane of the book is a candidate in the
    /// cell.
    pub fn least_candidate(&self) -> Option<u32>
        ensures { (solids : List Solid) (book cell : List Plane) → AreFragmentsOf solids book cell self.now →
            MatchOption result (HasNoCandidate solids book cell) (λ n. IsLeastCandidate solids book cell n (plane_at book n)) }
    {
        let least = self.gathering.least()?;
        Some(least.number)
    }

    /// What the cell has in front of a plane and behind it, for a plane that has a point of the cell. Where the plane is a
    /// candidate in the cell, both halves have fewer pieces.
    pub fn split(self, plane: &Plane) -> Result<CellHalves, AllocError>
        requires point { HasPointOn (cell_of_fragments self) plane.now }
        ensures front { IfOk result (λ halves. (solids : List Solid) (book cell : List Plane) →
            AreFragmentsOf solids book cell self → AreFragmentsOf solids book (front_of cell plane.now) halves.front) }
        ensures back { IfOk result (λ halves. (solids : List Solid) (book cell : List Plane) →
            AreFragmentsOf solids book cell self → AreFragmentsOf solids book (back_of cell plane.now) halves.back) }
        ensures front_count { IfOk result (λ halves. IsCandidatePlane self plane.now → piece_count halves.front < piece_count self) }
        ensures back_count { IfOk result (λ halves. IsCandidatePlane self plane.now → piece_count halves.back < piece_count self) }
    {
        let _ = &plane.nx;
        let section = self.section(plane)?;
        let Fragments { cell, gathering } = self;
        let halves = gathering.split(plane, &section)?;
        halves_of_cell(cell, plane, halves)
    }

    /// A winding on a plane in the cell.
    fn section(&self, plane: &Plane) -> Result<Winding, AllocError>
        requires { HasPointOn (cell_of_fragments self.now) plane.now }
        ensures { IfOk result (λ w. (solids : List Solid) (book cell : List Plane) →
            AreFragmentsOf solids book cell self.now → IsWindingInCell cell plane.now w) }
    {
        match self.gathering.winding_on(plane) {
            Some(winding) => winding.copy(),
            None => {
                let planes = self.cell.listed()?;
                section_of_cell(*planes.allocator(), &planes, plane)
            }
        }
    }

    /// What fills the cell: the contents of the strongest brush that contains it, else empty.
    pub fn contents(&self) -> Contents
        ensures { (solids : List Solid) (book cell : List Plane) → AreFragmentsOf solids book cell self.now → CellHasContents solids cell result }
    {
        match self.gathering.strongest {
            Some(contents) => contents,
            None => Contents::Empty,
        }
    }
}

/// Both halves of a cell that a plane parts, by what is known of them.
fn halves_of_cell(
    cell: CellPlanes,
    plane: &Plane,
    halves: Gatherings,
) -> Result<CellHalves, AllocError>
    ensures front { IfOk result (λ made. IsHalf (planes_of_cell cell) plane.now halves.front made.front) }
    ensures back { IfOk result (λ made. IsHalf (planes_of_cell cell) (flipped plane.now) halves.back made.back) }
{
    let _ = &plane.nx;
    let behind = cell.copied()?.with(plane.flipped())?;
    let before = cell.with(*plane)?;
    Ok(CellHalves {
        front: Fragments {
            cell: before,
            gathering: halves.front,
        },
        back: Fragments {
            cell: behind,
            gathering: halves.back,
        },
    })
}
