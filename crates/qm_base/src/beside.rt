//! Which windings have corners on which sides of planes.

ghost use Rattle.std.specs.Prelude.{◌≡◌, ◌<◌, length, All, IfOk};
ghost use Rattle.qm_base.specs.inner.Lanes.{AreLanes};
ghost use Rattle.qm_base.specs.inner.Besides.{AreBesides, AreClear, IsPutIn, IsPutAt};

use crate::lane::Lane;
use qm_bits::BitRow;
use qm_geom::Plane;
use qm_portal::World;
use qm_wind::{CornerSides, Winding};
use std::alloc::{AllocError, Global};

/// By the places of lanes: those whose windings have a corner strictly in front of a plane, and those with one strictly
/// behind it.
#[derive(Drop)]
pub(crate) struct Beside {
    pub(crate) front: BitRow,
    pub(crate) behind: BitRow,
}

/// On which sides of each of some planes the windings of lanes have corners. Each winding is looked at once, for all
/// planes in turn.
pub(crate) fn besides(
    alloc: Global,
    world: &World,
    lanes: &[Lane],
    planes: &[Plane],
) -> Result<Vec<Beside>, AllocError>
    requires { AreLanes world.now.portals lanes.now }
    ensures { IfOk result (λ rows. AreBesides world.now.portals lanes.now planes.now rows.items) }
{
    let mut rows = clear(alloc, planes.len(), lanes.len())?;
    for k in 0..lanes.len() {
        let pane = world.pane(lanes[k].portal);
        put_in(&pane.winding, planes, k as u64, &mut rows);
    }
    Ok(rows)
}

/// For so many planes, no corners of so many lanes.
fn clear(alloc: Global, planes: usize, lanes: usize) -> Result<Vec<Beside>, AllocError>
    ensures { IfOk result (λ rows. AreClear planes lanes rows.items) }
{
    let mut rows = Vec::new(alloc);
    for _c in 0..planes {
        let front = BitRow::with_len(alloc, lanes as u64)?;
        let behind = BitRow::with_len(alloc, lanes as u64)?;
        rows.push(Beside { front, behind })?;
    }
    Ok(rows)
}

/// Puts a winding in at a place, for all planes.
fn put_in(winding: &Winding, planes: &[Plane], place: u64, rows: &mut [Beside])
    requires one_each { length rows.old ≡ length planes.now }
    requires front { All (λ beside. place < length beside.front) rows.old }
    requires behind { All (λ beside. place < length beside.behind) rows.old }
    ensures { IsPutIn winding.now planes.now place rows.old rows.new }
{
    for c in 0..planes.len() {
        let sides = winding.corner_sides(&planes[c]);
        put_sides(&mut rows[c], place, sides);
    }
}

/// Sets a place in front and behind, where it is to be set there.
fn put_sides(beside: &mut Beside, place: u64, sides: CornerSides)
    requires front { place < length beside.old.front }
    requires behind { place < length beside.old.behind }
    ensures front { IsPutAt place sides.in_front beside.old.front beside.new.front }
    ensures behind { IsPutAt place sides.behind beside.old.behind beside.new.behind }
{
    put(&mut beside.front, place, sides.in_front);
    put(&mut beside.behind, place, sides.behind);
}

/// Sets a place where it is to be set.
fn put(row: &mut BitRow, place: u64, is: bool)
    requires { place < length row.old }
    ensures { IsPutAt place is row.old row.new }
{
    if is {
        row.set(place);
    }
}
