//! Workers beside one another, each with a pass of its own.

ghost use Rattle.std.specs.Prelude.{◌≡◌, ◌∷◌, ◌++◌, ◌+◌, [], IfOk};
ghost use Rattle.qm_shared_rows.specs.Findings.{found_by_both};
ghost use Rattle.std.specs.Thread.{IsSync};
ghost use Rattle.qm_board.specs.PassOf.{findings_of, IsPassOf};
ghost use Rattle.qm_crew.specs.inner.PassOver.{IsPassOver};
ghost use Rattle.qm_crew.specs.inner.TurnsTaken.{AreWorkLists};
ghost use Rattle.qm_crew.specs.inner.Ready.{AreReady};

use crate::gate::Gate;
use crate::shared::SharedWorld;
use crate::worker::{Worker, work};
use qm_board::{Pass, RowBoard};
use qm_lists::Items;
use std::alloc::{AllocError, Global};
use std::thread::{Threads, join};

/// What workers have: one pass that has found what theirs have, and the list of each, of which the first can be gone on with.
#[derive(Drop)]
pub(crate) struct Team {
    pub(crate) pass: Pass,
    pub(crate) first: Vec<u64>,
    pub(crate) others: Vec<Items<u64>>,
}

/// So many workers that are to begin, and the pass from which theirs are split off.
#[derive(Drop)]
pub(crate) struct Workers {
    pub(crate) pass: Pass,
    pub(crate) count: u8,
}

/// So many workers, at work in halves beside one another.
#[cycle(halves)]
pub(crate) fn work_all<R: Threads + Sync, G: Gate + Sync>(
    rt: &R,
    alloc: Global,
    shared: &SharedWorld<'_>,
    gate: &G,
    workers: Workers,
) -> Result<Team, AllocError>
    requires ready { AreReady shared.now.world.now shared.now.board.now workers }
    ensures pass { IfOk result (λ team. IsPassOver shared.now.world.now shared.now.board.now team.pass) }
    ensures lists { IfOk result (λ team. AreWorkLists shared.now.world.now (findings_of team.pass) workers.count (team.first.items ∷ team.others.items)) }
{
    let Workers { pass, count } = workers;
    if count == 1 {
        return Ok(team_of(alloc, work(alloc, shared, gate, pass)));
    }
    let low = count / 2;
    let (pass, other) = shared.board.split(pass);
    let one = Workers { pass, count: low };
    let two = Workers {
        pass: other,
        count: count - low,
    };
    both_halves(rt, alloc, shared, gate, one, two)
}

/// Two halves of the workers beside one another.
#[cycle(halves)]
fn both_halves<R: Threads + Sync, G: Gate + Sync>(
    rt: &R,
    alloc: Global,
    shared: &SharedWorld<'_>,
    gate: &G,
    one: Workers,
    two: Workers,
) -> Result<Team, AllocError>
    requires one { AreReady shared.now.world.now shared.now.board.now one }
    requires two { AreReady shared.now.world.now shared.now.board.now two }
    ensures pass { IfOk result (λ team. IsPassOver shared.now.world.now shared.now.board.now team.pass) }
    ensures lists { IfOk result (λ team. AreWorkLists shared.now.world.now (findings_of team.pass) (one.count + two.count) (team.first.items ∷ team.others.items)) }
{
    let (world, board) = (shared.world, shared.board);
    let front = move || -> Result<Team, AllocError>
        requires { IsSync R.row × IsSync G.row × AreReady world.now board.now one }
        ensures pass { IfOk result (λ team. IsPassOver world.entry.now board.entry.now team.pass) }
        ensures lists { IfOk result (λ team. AreWorkLists world.entry.now (findings_of team.pass) one.count (team.first.items ∷ team.others.items)) }
    { work_all(rt, alloc, &SharedWorld { world, board }, gate, one) };
    let back = move || -> Result<Team, AllocError>
        requires { IsSync R.row × IsSync G.row × AreReady world.now board.now two }
        ensures pass { IfOk result (λ team. IsPassOver world.entry.now board.entry.now team.pass) }
        ensures lists { IfOk result (λ team. AreWorkLists world.entry.now (findings_of team.pass) two.count (team.first.items ∷ team.others.items)) }
    { work_all(rt, alloc, &SharedWorld { world, board }, gate, two) };
    let (first, second) = join(rt, front, back);
    unite(board, first?, second?)
}

/// A team of one.
fn team_of(alloc: Global, worker: Worker) -> Team
    ensures pass { result.pass ≡ worker.pass }
    ensures first { result.first ≡ worker.list }
    ensures others { result.others.items ≡ [] }
{
    let Worker { pass, list, .. } = worker;
    Team {
        pass,
        first: list,
        others: Vec::new(alloc),
    }
}

/// One team of two.
fn unite(board: &RowBoard, team: Team, other: Team) -> Result<Team, AllocError>
    requires pass { IsPassOf board.now team.pass }
    requires other { IsPassOf board.now other.pass }
    ensures pass { IfOk result (λ both. IsPassOf board.now both.pass) }
    ensures found { IfOk result (λ both. findings_of both.pass ≡ found_by_both (findings_of team.pass) (findings_of other.pass)) }
    ensures lists { IfOk result (λ both. (both.first.items ∷ both.others.items) ≡ ((team.first.items ∷ team.others.items) ++ (other.first.items ∷ other.others.items))) }
{
    let Team {
        pass,
        first,
        mut others,
    } = team;
    let Team {
        pass: other_pass,
        first: other_first,
        others: mut more,
    } = other;
    others.push(Items::from_vec(other_first))?;
    others.append(&mut more)?;
    let pass = board.join(pass, other_pass);
    Ok(Team {
        pass,
        first,
        others,
    })
}
