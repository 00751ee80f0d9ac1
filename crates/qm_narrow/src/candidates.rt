//! Separators through the edges of one winding and the corners of another.

ghost use Rattle.std.specs.Prelude.{◌≡◌, ◌<◌, pos, length, OnOk};
ghost use Rattle.qm_space.specs.Point.{whole_point, AreCoordinates};
ghost use Rattle.qm_convex.specs.Winding.{corners};
ghost use Rattle.qm_separators.specs.Gains.{Gains};
ghost use Rattle.qm_separators.specs.Across.{HasNormalAcross};
ghost use Rattle.qm_separators.specs.Separator.{IsSeparator};
ghost use Rattle.qm_separators.specs.inner.Found.{SeparatesByMix, SeparatesAt, SeparatesByEdge};
ghost use Rattle.qm_narrow.specs.inner.Edge.{HasEdge};
ghost use Rattle.qm_narrow.specs.inner.FoundPlanes.{AreAtLeastDistance};
ghost use Rattle.qm_narrow.specs.inner.Pair.{IsPair};
ghost use Rattle.qm_narrow.specs.inner.Turn.{IsEdge};
ghost use Rattle.qm_narrow.specs.inner.WholeCandidates.{AreWholeCandidates};

use crate::across::gain_through;
use crate::edge::Edge;
use crate::outlook::Outlook;
use crate::pair::Pair;
use crate::places::{next_place, place_before};
use qm_geom::Plane;
use std::alloc::AllocError;

/// Whole points through which separators are sought: both ends of an edge, and all mixes of the points below and above a
/// corner.
#[derive(Clone, Copy)]
pub(crate) struct Points {
    pub(crate) below: [i32; 3],
    pub(crate) above: [i32; 3],
    pub(crate) from: [i32; 3],
    pub(crate) to: [i32; 3],
}

/// Gains the separators with a normal across two windings, by the edges of the one and the corners of the other.
pub(crate) fn gain_across(planes: &mut Vec<Plane>, pair: &Pair) -> Result<(), AllocError>
    requires pair { IsPair pair.now }
    requires found { AreAtLeastDistance pair.now.source.now planes.now.items }
    ensures { OnOk result (Gains (λ h. IsSeparator pair.now.source.now pair.now.pass.now h × HasNormalAcross (corners pair.now.edges.now) (corners pair.now.others.now) h) planes.old.items planes.new.items) }
{
    let _corners = pair.others.len();
    for i in 0..pair.edges.len() {
        gain_by_edge(planes, pair, i)?;
    }
    Ok(())
}

/// Gains those of one edge.
fn gain_by_edge(planes: &mut Vec<Plane>, pair: &Pair, i: usize) -> Result<(), AllocError>
    requires pair { IsPair pair.now }
    requires found { AreAtLeastDistance pair.now.source.now planes.now.items }
    requires in_range { i < length pair.now.edges.now.edges }
    ensures { OnOk result (Gains (SeparatesByEdge pair.now.source.now pair.now.pass.now pair.now.edges.now pair.now.others.now i) planes.old.items planes.new.items) }
{
    let edge = Edge::at(pair.edges, i);
    for k in 0..pair.others.len() {
        gain_at(planes, pair, &edge, i, k)?;
    }
    Ok(())
}

/// Gains those of one edge and one corner. Where the look at them tells that none parts the windings, no whole point around
/// the corner is taken by itself.
fn gain_at(
    planes: &mut Vec<Plane>,
    pair: &Pair,
    edge: &Edge,
    i: usize,
    k: usize,
) -> Result<(), AllocError>
    requires pair { IsPair pair.now }
    requires edge { IsEdge edge.now }
    requires of_edges { HasEdge pair.now.edges.now i edge.now }
    requires found { AreAtLeastDistance pair.now.source.now planes.now.items }
    requires corner_in_range { k < length pair.now.others.now.edges }
    ensures { OnOk result (Gains (SeparatesAt pair.now.source.now pair.now.pass.now pair.now.edges.now pair.now.others.now i k) planes.old.items planes.new.items) }
{
    let count = pair.others.len();
    let before = pair.others.spot(place_before(count, k));
    let after = pair.others.spot(next_place(count, k));
    let own = pair.others.spot(k);
    let look = edge.outlook(own, before, after);
    let outlook = look.exchanged(pair.of_pass);
    if outlook.is_none() {
        return Ok(());
    }
    let points = Points {
        below: own.below,
        above: own.above,
        from: edge.from,
        to: edge.to,
    };
    gain_mixed(planes, pair, &outlook, &points)?;
    Ok(())
}

/// A point with the x of another.
fn with_x_of(point: [i32; 3], other: [i32; 3]) -> [i32; 3]
    requires point_in_cube { AreCoordinates point }
    requires other_in_cube { AreCoordinates other }
    ensures exact { whole_point result ≡ record { x = (whole_point other).x; y = (whole_point point).y; z = (whole_point point).z; w = pos 1 } }
    ensures in_cube { AreCoordinates result }
{
    [other[0], point[1], point[2]]
}

/// A point with the z of another.
fn with_z_of(point: [i32; 3], other: [i32; 3]) -> [i32; 3]
    requires point_in_cube { AreCoordinates point }
    requires other_in_cube { AreCoordinates other }
    ensures exact { whole_point result ≡ record { x = (whole_point point).x; y = (whole_point point).y; z = (whole_point other).z; w = pos 1 } }
    ensures in_cube { AreCoordinates result }
{
    [point[0], point[1], other[2]]
}

/// Gains those through the ends of an edge and a mix of two other points.
fn gain_mixed(
    planes: &mut Vec<Plane>,
    pair: &Pair,
    outlook: &Outlook,
    points: &Points,
) -> Result<(), AllocError>
    requires points { AreWholeCandidates pair.now.source.now pair.now.pass.now outlook.now points.now }
    requires found { AreAtLeastDistance pair.now.source.now planes.now.items }
    ensures { OnOk result (Gains (SeparatesByMix pair.now.source.now pair.now.pass.now (whole_point points.now.below) (whole_point points.now.above) (whole_point points.now.from) (whole_point points.now.to)) planes.old.items planes.new.items) }
{
    let below = points.below;
    let above = points.above;
    let high = with_x_of(above, below);
    let first = Points {
        below,
        above: high,
        from: points.from,
        to: points.to,
    };
    gain_layer(planes, pair, outlook, &first)?;
    if below[0] != above[0] {
        let low = with_x_of(below, above);
        let second = Points {
            below: low,
            above,
            from: points.from,
            to: points.to,
        };
        gain_layer(planes, pair, outlook, &second)?;
    }
    Ok(())
}

/// Gains those where the two others agree in x.
fn gain_layer(
    planes: &mut Vec<Plane>,
    pair: &Pair,
    outlook: &Outlook,
    points: &Points,
) -> Result<(), AllocError>
    requires points { AreWholeCandidates pair.now.source.now pair.now.pass.now outlook.now points.now }
    requires found { AreAtLeastDistance pair.now.source.now planes.now.items }
    requires flat { (whole_point points.now.below).x ≡ (whole_point points.now.above).x }
    ensures { OnOk result (Gains (SeparatesByMix pair.now.source.now pair.now.pass.now (whole_point points.now.below) (whole_point points.now.above) (whole_point points.now.from) (whole_point points.now.to)) planes.old.items planes.new.items) }
{
    let below = points.below;
    let above = points.above;
    let high = with_z_of(below, above);
    let first = Points {
        below,
        above: high,
        from: points.from,
        to: points.to,
    };
    gain_row(planes, pair, outlook, &first)?;
    if below[1] != above[1] {
        let low = with_z_of(above, below);
        let second = Points {
            below: low,
            above,
            from: points.from,
            to: points.to,
        };
        gain_row(planes, pair, outlook, &second)?;
    }
    Ok(())
}

/// Gains those where the two others agree in x and y.
fn gain_row(
    planes: &mut Vec<Plane>,
    pair: &Pair,
    outlook: &Outlook,
    points: &Points,
) -> Result<(), AllocError>
    requires points { AreWholeCandidates pair.now.source.now pair.now.pass.now outlook.now points.now }
    requires found { AreAtLeastDistance pair.now.source.now planes.now.items }
    requires flat { (whole_point points.now.below).x ≡ (whole_point points.now.above).x }
    requires straight { (whole_point points.now.below).y ≡ (whole_point points.now.above).y }
    ensures { OnOk result (Gains (SeparatesByMix pair.now.source.now pair.now.pass.now (whole_point points.now.below) (whole_point points.now.above) (whole_point points.now.from) (whole_point points.now.to)) planes.old.items planes.new.items) }
{
    let below = points.below;
    let above = points.above;
    let from = points.from;
    let to = points.to;
    gain_through(planes, pair, outlook, below, from, to)?;
    if below[2] != above[2] {
        gain_through(planes, pair, outlook, above, from, to)?;
    }
    Ok(())
}
