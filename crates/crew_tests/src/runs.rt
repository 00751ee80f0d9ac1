//! What tests share: the three rooms, and runs of a crew.

ghost use Rattle.std.specs.Prelude.{◌≡◌, length, All, IfOk};
ghost use Rattle.qm_contacts.specs.NumberedLeaves.{numbered_leaves};

use qm_base::base;
use qm_crew::{Crewed, Gate, crew};
use qm_portal::World;
use std::alloc::{AllocError, Global};
use std::thread::Threads;
use test_texts::{CORNER_ROOMS, text_of};
use test_worlds::world_of;

/// The world of three rooms round a corner.
pub(crate) fn corner_rooms(alloc: Global) -> Result<World, AllocError> {
    let text = text_of(alloc, &CORNER_ROOMS)?;
    world_of(alloc, text.as_str(), [-64, 0, 24])
}

/// What so many workers answer, from coarse rows on; one where none is asked for, and 64 where more are.
pub(crate) fn crewed<R: Threads + Sync, G: Gate + Sync>(
    rt: &R,
    alloc: Global,
    world: &World,
    workers: u8,
    gate: &G,
) -> Result<Crewed, AllocError>
    ensures one_each { IfOk result (λ crewed. length crewed.rows ≡ length world.now.portals) }
    ensures wide { IfOk result (λ crewed. All (λ row. length row ≡ length (numbered_leaves world.now.tree)) crewed.rows) }
{
    let coarse = base(alloc, world)?;
    let workers = if workers == 0 { 1 } else { workers };
    let workers = if workers > 64 { 64 } else { workers };
    crew(rt, alloc, world, coarse, workers, gate)
}
