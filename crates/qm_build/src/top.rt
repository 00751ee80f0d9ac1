//! What a walk meets first in a cell.

ghost use Rattle.std.specs.Prelude.{List, IfOk};
ghost use Rattle.qm_solids.specs.Solid.{Solid};
ghost use Rattle.qm_build.specs.inner.UnderWay.{AreFragments};
ghost use Rattle.qm_build.specs.inner.Tops.{IsTopOf};

use qm_geom::PlaneBook;
use qm_partition::Leaf;
use qm_split::{CellHalves, Fragments};
use std::alloc::AllocError;

/// What a walk meets first in a cell: a leaf, where no plane parts it, and else a node on the plane of a number, with what is
/// on both sides of it.
#[derive(Drop)]
pub(crate) enum Top {
    Leaf(Leaf),
    Node(u32, CellHalves),
}

/// What a walk meets first in the cell of fragments.
pub(crate) fn top_of(fragments: Fragments, book: &PlaneBook) -> Result<Top, AllocError>
    requires { (solids : List Solid) × AreFragments solids book.now fragments }
    ensures { IfOk result (λ top. (solids : List Solid) → AreFragments solids book.now fragments →
        IsTopOf solids book.now fragments top) }
{
    match fragments.least_candidate() {
        None => Ok(Top::Leaf(Leaf {
            contents: fragments.contents(),
            filled: false,
        })),
        Some(number) => {
            let plane = book.plane(number);
            let halves = fragments.split(&plane)?;
            Ok(Top::Node(number, halves))
        }
    }
}
