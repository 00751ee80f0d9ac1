//! The work of one worker: it draws portals, and takes the turn of each.

ghost use Rattle.std.specs.Prelude.{◌≡◌, ◌<◌, ◌≤◌, [], length};
ghost use Rattle.std.specs.Vec.{vec_len, vec_capacity};
ghost use Rattle.qm_board.specs.PassOf.{findings_of};
ghost use Rattle.qm_crew.specs.inner.PassOver.{IsPassOver};
ghost use Rattle.qm_crew.specs.inner.TurnsTaken.{LieAlong, IsWorkBelow, IsWorkList};

use crate::gate::Gate;
use crate::shared::SharedWorld;
use crate::turn::take_turn;
use qm_board::Pass;
use qm_lines::LineStore;
use std::alloc::Global;

/// What a worker has: its pass, the portals that it published, in order, all of them below `next`, and its store of lines, which
/// it hands from flow to flow.
#[derive(Drop)]
pub(crate) struct Worker {
    pub(crate) pass: Pass,
    pub(crate) list: Vec<u64>,
    pub(crate) next: u64,
    pub(crate) lines: LineStore,
}

/// Draws numbers and takes the turns of these portals, until there is a number of no portal, or one that is not above the
/// one before, or no memory. It draws at most as often as there are portals.
pub(crate) fn work<G: Gate>(alloc: Global, shared: &SharedWorld<'_>, gate: &G, pass: Pass) -> Worker
    requires pass { IsPassOver shared.now.world.now shared.now.board.now pass }
    requires along { LieAlong shared.now.world.now (findings_of pass) [] }
    ensures pass { IsPassOver shared.now.world.now shared.now.board.now result.pass }
    ensures work { IsWorkList shared.now.world.now (findings_of result.pass) result.list.items }
{
    let mut worker = Worker {
        pass,
        list: Vec::new(alloc),
        next: 0,
        lines: LineStore::new(alloc),
    };
    for _k in 0..shared.world.portals() {
        let (stepped, on) = step(alloc, shared, gate, worker);
        worker = stepped;
        if !on {
            break;
        }
    }
    worker
}

/// Draws a number and takes the turn of that portal, where there is room to list it. It also tells whether the worker goes on.
fn step<G: Gate>(
    alloc: Global,
    shared: &SharedWorld<'_>,
    gate: &G,
    worker: Worker,
) -> (Worker, bool)
    requires pass { IsPassOver shared.now.world.now shared.now.board.now worker.pass }
    requires work { IsWorkBelow shared.now.world.now (findings_of worker.pass) worker.next worker.list.items }
    ensures pass { IsPassOver shared.now.world.now shared.now.board.now result.0.pass }
    ensures work { IsWorkBelow shared.now.world.now (findings_of result.0.pass) result.0.next result.0.list.items }
{
    let mut worker = worker;
    if worker.list.reserve(1).is_err() {
        return (worker, false);
    }
    let portal = shared.board.draw(&mut worker.pass);
    if portal >= shared.world.portals() || portal < worker.next {
        return (worker, false);
    }
    gate.at(portal);
    go_on(alloc, shared, gate, worker, portal)
}

/// Takes the turn of a portal, for which there is room in the list, and lists it. After want of memory the worker stops.
fn go_on<G: Gate>(
    alloc: Global,
    shared: &SharedWorld<'_>,
    gate: &G,
    worker: Worker,
    portal: u64,
) -> (Worker, bool)
    requires pass { IsPassOver shared.now.world.now shared.now.board.now worker.pass }
    requires work { IsWorkBelow shared.now.world.now (findings_of worker.pass) worker.next worker.list.items }
    requires portal_in_range { portal < length shared.now.world.now.portals }
    requires above { worker.next ≤ portal }
    requires room { vec_len worker.list < vec_capacity worker.list }
    ensures pass { IsPassOver shared.now.world.now shared.now.board.now result.0.pass }
    ensures work { IsWorkBelow shared.now.world.now (findings_of result.0.pass) result.0.next result.0.list.items }
{
    let Worker {
        pass,
        mut list,
        next,
        mut lines,
    } = worker;
    let (pass, taken) = take_turn(alloc, shared, gate, pass, &mut lines, portal);
    match taken {
        Err(_) => (
            Worker {
                pass,
                list,
                next,
                lines,
            },
            false,
        ),
        Ok(()) => {
            list.push_reserved(portal);
            let next = portal + 1;
            (
                Worker {
                    pass,
                    list,
                    next,
                    lines,
                },
                true,
            )
        }
    }
}
