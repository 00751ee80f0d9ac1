//! Portals via which nothing is seen from the first one of a flow, since the portals back do not show both of its leaves.

ghost use Rattle.std.specs.Prelude.{◌≡◌, ◌<◌, Bool, List, length, All, IsTrue};
ghost use Rattle.qm_contacts.specs.NumberedLeaves.{numbered_leaves};
ghost use Rattle.qm_chains.specs.inner.Pairs.{ArePairs};
ghost use Rattle.qm_flow.specs.inner.FlowPairs.{pairs_of};
ghost use Rattle.qm_flow.specs.inner.FlowGoesOn.{FlowGoesOn};
ghost use Rattle.qm_flow.specs.inner.UnseenVia.{IsUnseenVia};

use crate::flow_state::Flow;
use qm_portal::World;
use qm_sight::{RowSource, has_leaf};

/// Bars each portal that leaves a leaf which may be in sight of the first, and via which nothing is seen: leaf by leaf, since
/// the portals that leave one are listed. It takes no memory.
pub(crate) fn bar_unseen<'a, S: RowSource>(flow: &mut Flow<'a>, source: &mut S)
    requires same_world { S.world source.old ≡ flow.old.world.now }
    requires pairs { (found : List Bool) → ArePairs flow.old.world.now found (pairs_of flow.old) }
    ensures flow { (found : List Bool) → FlowGoesOn (S.ceilings source.old) found flow.old flow.new }
    ensures on { S.goes_on source.old source.new }
{
    for leaf in 0..flow.world.leaves() {
        bar_at(flow, source, leaf);
    }
}

/// Bars such portals of one leaf, where that may be in sight.
fn bar_at<'a, S: RowSource>(flow: &mut Flow<'a>, source: &mut S, leaf: u64)
    requires leaf { leaf < length (numbered_leaves flow.old.world.now.tree) }
    requires same_world { S.world source.old ≡ flow.old.world.now }
    requires pairs { (found : List Bool) → ArePairs flow.old.world.now found (pairs_of flow.old) }
    ensures flow { (found : List Bool) → FlowGoesOn (S.ceilings source.old) found flow.old flow.new }
    ensures on { S.goes_on source.old source.new }
{
    if flow.seen.get(leaf) {
        let portals = flow.world.leaving(leaf);
        bar_each(flow, source, portals);
    }
}

/// Bars each of some portals via which nothing is seen.
fn bar_each<'a, S: RowSource>(flow: &mut Flow<'a>, source: &mut S, portals: &[u64])
    requires portals { All (λ p. p < length flow.old.world.now.portals) portals.now }
    requires same_world { S.world source.old ≡ flow.old.world.now }
    requires pairs { (found : List Bool) → ArePairs flow.old.world.now found (pairs_of flow.old) }
    ensures flow { (found : List Bool) → FlowGoesOn (S.ceilings source.old) found flow.old flow.new }
    ensures on { S.goes_on source.old source.new }
{
    for portal in portals {
        bar_portal(flow, source, *portal);
    }
}

/// Bars a portal, where nothing is seen via it.
fn bar_portal<'a, S: RowSource>(flow: &mut Flow<'a>, source: &mut S, portal: u64)
    requires portal { portal < length flow.old.world.now.portals }
    requires same_world { S.world source.old ≡ flow.old.world.now }
    requires pairs { (found : List Bool) → ArePairs flow.old.world.now found (pairs_of flow.old) }
    ensures flow { (found : List Bool) → FlowGoesOn (S.ceilings source.old) found flow.old flow.new }
    ensures on { S.goes_on source.old source.new }
{
    if !is_unseen(flow.world, source, flow.first, portal) {
        return;
    }
    let leaves = flow.world.leaves();
    flow.own.bar(portal, leaves);
}

/// Whether nothing is seen from the first portal via another one: the row of the portal back lacks the leaf that the first portal
/// leaves, or the one that it enters.
fn is_unseen<S: RowSource>(world: &World, source: &mut S, first: u64, portal: u64) -> bool
    requires first { first < length world.now.portals }
    requires portal { portal < length world.now.portals }
    requires same_world { S.world source.old ≡ world.now }
    ensures unseen { IsTrue result → IsUnseenVia world.now first portal }
    ensures on { S.goes_on source.old source.new }
{
    let back = world.back(portal);
    if !has_leaf(source, back, world.from(first)) {
        return true;
    }
    !has_leaf(source, back, world.to(first))
}
