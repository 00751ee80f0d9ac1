//! Turns that the caller takes itself: once workers have returned, what is left.

ghost use Rattle.std.specs.Prelude.{◌≡◌, ◌⊎◌, ℕ, ◌+◌, ◌<◌, [], ◌∷◌, ◌++◌, All, length, Contains, IfOk};
ghost use Rattle.qm_lists.specs.WorkList.{IsIn};
ghost use Rattle.qm_board.specs.PassOf.{findings_of};
ghost use Rattle.qm_crew.specs.inner.PassOver.{IsPassOver};
ghost use Rattle.qm_crew.specs.inner.TurnsTaken.{HadTurn, IsInSomeList, AreSettled};

use crate::gate::OpenGate;
use crate::shared::SharedWorld;
use crate::turn::take_turn;
use qm_bits::BitRow;
use qm_board::Pass;
use qm_lines::LineStore;
use qm_lists::Items;
use qm_portal::World;
use std::alloc::{AllocError, Global};

/// What the caller goes on with: a pass, the first list, and a store of lines, which it hands from flow to flow.
#[derive(Drop)]
pub(crate) struct Settling {
    pub(crate) pass: Pass,
    pub(crate) first: Vec<u64>,
    pub(crate) lines: LineStore,
}

/// Takes the turn of a portal, and appends it to the first list.
pub(crate) fn append_turn(
    alloc: Global,
    shared: &SharedWorld<'_>,
    settling: Settling,
    portal: u64,
) -> Result<Settling, AllocError>
    requires pass { IsPassOver shared.now.world.now shared.now.board.now settling.pass }
    requires portal_in_range { portal < length shared.now.world.now.portals }
    ensures pass { IfOk result (λ ended. IsPassOver shared.now.world.now shared.now.board.now ended.pass) }
    ensures turn { IfOk result (λ ended. HadTurn shared.now.world.now portal (findings_of settling.pass) (findings_of ended.pass)) }
    ensures appended { IfOk result (λ ended. ended.first.items ≡ settling.first.items ++ portal ∷ []) }
{
    let Settling {
        pass,
        mut first,
        mut lines,
    } = settling;
    let (pass, taken) = take_turn(alloc, shared, &OpenGate, pass, &mut lines, portal);
    taken?;
    first.push(portal)?;
    Ok(Settling { pass, first, lines })
}

/// Looks for each portal that is not done, or stands in no list. It takes the turns of these in order, and appends each to the
/// first list.
pub(crate) fn settle(
    alloc: Global,
    shared: &SharedWorld<'_>,
    begun: Settling,
    others: &[Items<u64>],
) -> Result<Settling, AllocError>
    requires pass { IsPassOver shared.now.world.now shared.now.board.now begun.pass }
    requires settled { AreSettled shared.now.world.now (findings_of begun.pass) begun.first.items others.now 0 }
    ensures pass { IfOk result (λ ended. IsPassOver shared.now.world.now shared.now.board.now ended.pass) }
    ensures settled { IfOk result (λ ended. AreSettled shared.now.world.now (findings_of ended.pass) ended.first.items others.now (length shared.now.world.now.portals)) }
{
    let listed = listed(alloc, shared.world, begun.first.as_slice(), others)?;
    settle_each(alloc, shared, begun, others, &listed)
}

/// Settles all portals in order, where all that are listed stand in a list.
fn settle_each(
    alloc: Global,
    shared: &SharedWorld<'_>,
    begun: Settling,
    others: &[Items<u64>],
    listed: &BitRow,
) -> Result<Settling, AllocError>
    requires long { length listed.now ≡ length shared.now.world.now.portals }
    requires stands { (number : ℕ) → IsIn listed.now number → IsInSomeList (begun.first.items ∷ others.now) number }
    requires pass { IsPassOver shared.now.world.now shared.now.board.now begun.pass }
    requires settled { AreSettled shared.now.world.now (findings_of begun.pass) begun.first.items others.now 0 }
    ensures pass { IfOk result (λ ended. IsPassOver shared.now.world.now shared.now.board.now ended.pass) }
    ensures settled { IfOk result (λ ended. AreSettled shared.now.world.now (findings_of ended.pass) ended.first.items others.now (length shared.now.world.now.portals)) }
{
    let mut settling = begun;
    for portal in 0..shared.world.portals() {
        settling = settle_one(alloc, shared, settling, others, listed, portal)?;
    }
    Ok(settling)
}

/// Takes the turn of a portal where it is not done or not listed.
fn settle_one(
    alloc: Global,
    shared: &SharedWorld<'_>,
    settling: Settling,
    others: &[Items<u64>],
    listed: &BitRow,
    portal: u64,
) -> Result<Settling, AllocError>
    requires portal_in_range { portal < length shared.now.world.now.portals }
    requires long { length listed.now ≡ length shared.now.world.now.portals }
    requires stands { IsIn listed.now portal → IsInSomeList (settling.first.items ∷ others.now) portal }
    requires pass { IsPassOver shared.now.world.now shared.now.board.now settling.pass }
    requires settled { AreSettled shared.now.world.now (findings_of settling.pass) settling.first.items others.now portal }
    ensures pass { IfOk result (λ ended. IsPassOver shared.now.world.now shared.now.board.now ended.pass) }
    ensures settled { IfOk result (λ ended. AreSettled shared.now.world.now (findings_of ended.pass) ended.first.items others.now (portal + 1)) }
    ensures gained { IfOk result (λ ended. (number : ℕ) → IsInSomeList (settling.first.items ∷ others.now) number → IsInSomeList (ended.first.items ∷ others.now) number) }
{
    let Settling {
        mut pass,
        first,
        lines,
    } = settling;
    let stands = listed.get(portal);
    let done = shared.board.is_done(&mut pass, portal);
    let settling = Settling { pass, first, lines };
    if done && stands {
        return Ok(settling);
    }
    append_turn(alloc, shared, settling, portal)
}

/// Which portals stand in a list.
fn listed(
    alloc: Global,
    world: &World,
    first: &[u64],
    others: &[Items<u64>],
) -> Result<BitRow, AllocError>
    requires first { All (λ number. number < length world.now.portals) first.now }
    requires others { All (All (λ number. number < length world.now.portals)) others.now }
    ensures long { IfOk result (λ row. length row ≡ length world.now.portals) }
    ensures stands { IfOk result (λ row. (number : ℕ) → IsIn row number → IsInSomeList (first.now ∷ others.now) number) }
{
    let mut row = BitRow::with_len(alloc, world.portals())?;
    mark_all(&mut row, first);
    for list in others {
        mark_all(&mut row, list.as_slice());
    }
    Ok(row)
}

/// Sets the places that a list has.
fn mark_all(row: &mut BitRow, list: &[u64])
    requires { All (λ number. number < length row.old) list.now }
    ensures long { length row.new ≡ length row.old }
    ensures only { (number : ℕ) → IsIn row.new number → IsIn row.old number ⊎ Contains list.now number }
{
    for number in list {
        row.set(*number);
    }
}
