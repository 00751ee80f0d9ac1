//! The rows of all portals, found by workers beside one another.

ghost use Rattle.std.specs.Prelude.{◌≡◌, ◌∷◌, ◌<◌, ◌≤◌, [], All, length, IfOk};
ghost use Rattle.std.specs.List.{range_with_len};
ghost use Rattle.qm_contacts.specs.NumberedLeaves.{numbered_leaves};
ghost use Rattle.qm_coarse_rows.specs.CoarseRow.{AreCoarseRows};
ghost use Rattle.qm_segments.specs.Sight.{AreSoundRows};
ghost use Rattle.qm_chains.specs.TurnLists.{AreTurns, LieInReuseOver};
ghost use Rattle.qm_board.specs.PassOf.{findings_of};
ghost use Rattle.qm_crew.specs.InBounds.{LieInBounds};
ghost use Rattle.qm_crew.specs.inner.PassOver.{IsPassOver};
ghost use Rattle.qm_crew.specs.inner.TurnsTaken.{LieAlong, AreFinished};

use crate::alone::work_alone;
use crate::gate::Gate;
use crate::settling::{Settling, settle};
use crate::shared::SharedWorld;
use crate::team::{Team, Workers, work_all};
use qm_bits::BitRow;
use qm_board::{Pass, RowBoard};
use qm_lines::LineStore;
use qm_lists::Items;
use qm_portal::World;
use std::alloc::{AllocError, Global};
use std::thread::Threads;

/// The rows of all portals, and for each worker the portals that it published, by their numbers and in order.
#[derive(Drop)]
pub struct Crewed {
    pub rows: Items<BitRow>,
    pub turns: Items<Items<u64>>,
}

/// The rows of all portals of a world, found by so many workers over one board, from its coarse rows on. Each row has all that
/// is in sight of its portal, and lies within its bound and within its reuse over the turns that are answered. One worker
/// takes the portals in order of their numbers, and calls no gate.
pub fn crew<R: Threads + Sync, G: Gate + Sync>(
    rt: &R,
    alloc: Global,
    world: &World,
    coarse: Items<BitRow>,
    workers: u8,
    gate: &G,
) -> Result<Crewed, AllocError>
    requires some { 1 ≤ workers }
    requires not_too_many { workers ≤ 64 }
    requires coarse { AreCoarseRows world.now.portals (length (numbered_leaves world.now.tree)) coarse }
    ensures one_each { IfOk result (λ crewed. length crewed.rows ≡ length world.now.portals) }
    ensures wide { IfOk result (λ crewed. All (λ row. length row ≡ length (numbered_leaves world.now.tree)) crewed.rows) }
    ensures sound { IfOk result (λ crewed. AreSoundRows world.now.tree world.now.portals crewed.rows) }
    ensures bounds { IfOk result (λ crewed. LieInBounds world.now.portals crewed.rows) }
    ensures turns { IfOk result (λ crewed. AreTurns workers (length world.now.portals) crewed.turns) }
    ensures reuse { IfOk result (λ crewed. LieInReuseOver world.now.portals crewed.turns crewed.rows) }
    ensures alone { workers ≡ 1 → IfOk result (λ crewed. crewed.turns ≡ range_with_len 0 (length world.now.portals) ∷ []) }
{
    world.own_portals();
    let (board, pass) = RowBoard::new(alloc, world, coarse)?;
    let shared = SharedWorld {
        world,
        board: &board,
    };
    let Finished { pass, turns } = work(rt, alloc, &shared, pass, workers, gate)?;
    let rows = board.close(alloc, pass)?;
    Ok(Crewed { rows, turns })
}

/// What all workers leave: a pass, and the turns that were taken.
#[derive(Drop)]
struct Finished {
    pass: Pass,
    turns: Items<Items<u64>>,
}

/// The turns of so many workers.
fn work<R: Threads + Sync, G: Gate + Sync>(
    rt: &R,
    alloc: Global,
    shared: &SharedWorld<'_>,
    pass: Pass,
    workers: u8,
    gate: &G,
) -> Result<Finished, AllocError>
    requires some { 1 ≤ workers }
    requires pass { IsPassOver shared.now.world.now shared.now.board.now pass }
    requires along { LieAlong shared.now.world.now (findings_of pass) [] }
    ensures pass { IfOk result (λ all. IsPassOver shared.now.world.now shared.now.board.now all.pass) }
    ensures finished { IfOk result (λ all. AreFinished shared.now.world.now (findings_of all.pass) workers all.turns) }
{
    if workers == 1 {
        return work_by_one(alloc, shared, pass);
    }
    work_by_several(rt, alloc, shared, pass, workers, gate)
}

/// The turns of one worker alone.
fn work_by_one(alloc: Global, shared: &SharedWorld<'_>, pass: Pass) -> Result<Finished, AllocError>
    requires pass { IsPassOver shared.now.world.now shared.now.board.now pass }
    requires along { LieAlong shared.now.world.now (findings_of pass) [] }
    ensures pass { IfOk result (λ all. IsPassOver shared.now.world.now shared.now.board.now all.pass) }
    ensures finished { IfOk result (λ all. AreFinished shared.now.world.now (findings_of all.pass) 1 all.turns) }
{
    let Settling { pass, first, .. } = work_alone(alloc, shared, pass)?;
    let turns = turns_of(alloc, first, Vec::new(alloc))?;
    Ok(Finished { pass, turns })
}

/// The turns of several workers, and then those of the caller.
fn work_by_several<R: Threads + Sync, G: Gate + Sync>(
    rt: &R,
    alloc: Global,
    shared: &SharedWorld<'_>,
    pass: Pass,
    workers: u8,
    gate: &G,
) -> Result<Finished, AllocError>
    requires several { 1 < workers }
    requires pass { IsPassOver shared.now.world.now shared.now.board.now pass }
    requires along { LieAlong shared.now.world.now (findings_of pass) [] }
    ensures pass { IfOk result (λ all. IsPassOver shared.now.world.now shared.now.board.now all.pass) }
    ensures finished { IfOk result (λ all. AreFinished shared.now.world.now (findings_of all.pass) workers all.turns) }
{
    let Team {
        pass,
        first,
        others,
    } = work_all(
        rt,
        alloc,
        shared,
        gate,
        Workers {
            pass,
            count: workers,
        },
    )?;
    let begun = Settling {
        pass,
        first,
        lines: LineStore::new(alloc),
    };
    let Settling { pass, first, .. } = settle(alloc, shared, begun, others.as_slice())?;
    let turns = turns_of(alloc, first, others)?;
    Ok(Finished { pass, turns })
}

/// A list of all lists.
fn turns_of(
    alloc: Global,
    first: Vec<u64>,
    mut others: Vec<Items<u64>>,
) -> Result<Items<Items<u64>>, AllocError>
    ensures { IfOk result (λ turns. turns ≡ first.items ∷ others.items) }
{
    let mut turns = Vec::new(alloc);
    turns.push(Items::from_vec(first))?;
    turns.append(&mut others)?;
    Ok(Items::from_vec(turns))
}
