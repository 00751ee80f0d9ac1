//! The planes of a cell.

ghost use Rattle.std.specs.Prelude.{◌≡◌, ◌++◌, ◌∷◌, [], IfOk};
ghost use Rattle.qm_split.specs.CellPlanes.{planes_of_runs, planes_of_cell};

use qm_geom::Plane;
use std::alloc::{AllocError, Global};
use std::sync::Arc;

/// How many planes of its own a cell has before it shares them with the cells below it.
const RUN: usize = 32;

/// For how many planes more than a list it copies another has room, so that those of cells below are mostly not moved.
const ROOM: usize = 8;

/// The planes of a cell, the newest last. Cells below one another share the older ones, so that a cell takes little room of its
/// own however deep in a tree it is.
#[derive(Drop)]
pub(crate) struct CellPlanes {
    /// Runs of planes that cells share, the oldest first.
    shared: Vec<Arc<Vec<Plane>>>,
    /// The newest planes.
    own: Vec<Plane>,
}

impl CellPlanes {
    /// Of the whole cube, which has none.
    pub(crate) fn new(alloc: Global) -> CellPlanes
        ensures { planes_of_cell result ≡ [] }
    {
        CellPlanes {
            shared: Vec::new(alloc),
            own: Vec::new(alloc),
        }
    }

    /// With one plane more.
    pub(crate) fn with(self, plane: Plane) -> Result<CellPlanes, AllocError>
        ensures { IfOk result (λ more. planes_of_cell more ≡ planes_of_cell self ++ plane ∷ []) }
    {
        let CellPlanes { shared, own } = self;
        let mut own = own;
        own.push(plane)?;
        if own.len() < RUN {
            return Ok(CellPlanes { shared, own });
        }
        all_shared(shared, own)
    }

    /// The same planes once more.
    pub(crate) fn copied(&self) -> Result<CellPlanes, AllocError>
        ensures { IfOk result (λ copy. planes_of_cell copy ≡ planes_of_cell self.now) }
    {
        let alloc = *self.own.allocator();
        let mut own = Vec::with_capacity(alloc, self.own.len() + ROOM)?;
        own.extend_from_slice(&self.own)?;
        let shared = same_runs(alloc, &self.shared)?;
        Ok(CellPlanes { shared, own })
    }

    /// All planes in one list.
    pub(crate) fn listed(&self) -> Result<Vec<Plane>, AllocError>
        ensures { IfOk result (λ planes. planes.items ≡ planes_of_cell self.now) }
    {
        let mut planes = Vec::new(*self.own.allocator());
        for run in &self.shared {
            planes.extend_from_slice(run)?;
        }
        planes.extend_from_slice(&self.own)?;
        Ok(planes)
    }
}

/// The planes of runs, and then those of a list, as runs alone.
fn all_shared(shared: Vec<Arc<Vec<Plane>>>, own: Vec<Plane>) -> Result<CellPlanes, AllocError>
    ensures { IfOk result (λ cell. planes_of_cell cell ≡ planes_of_runs shared.items ++ own.items) }
{
    let alloc = *own.allocator();
    let mut shared = shared;
    shared.push(Arc::new(alloc, own)?)?;
    Ok(CellPlanes {
        shared,
        own: Vec::new(alloc),
    })
}

/// The same runs once more.
fn same_runs(alloc: Global, runs: &[Arc<Vec<Plane>>]) -> Result<Vec<Arc<Vec<Plane>>>, AllocError>
    ensures { IfOk result (λ same. planes_of_runs same.items ≡ planes_of_runs runs.now) }
{
    let mut same = Vec::with_capacity(alloc, runs.len())?;
    for run in runs {
        same.push(run.clone()?)?;
    }
    Ok(same)
}
