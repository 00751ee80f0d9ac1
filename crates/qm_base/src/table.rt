//! All sides on which windings of portals have corners beside planes of portals, each found once.

ghost use Rattle.std.specs.Prelude.{◌≡◌, ◌<◌, ◌+◌, ◌↔◌, ℕ, length, IfOk, OnOk, IsTrue};
ghost use Rattle.qm_base.specs.inner.Tables.{IsTable, AreClasses, IsLastPlaneOf, IsPlaneAdded, HasPlaneBefore, ahead, back};

use crate::beside::{Beside, besides};
use crate::lane::{Lane, lanes};
use qm_bits::BitRow;
use qm_geom::Plane;
use qm_portal::World;
use std::alloc::{AllocError, Global};

/// The turned plane of a lane: the place of its plane among the rows of a table, and whether it is turned to its front.
#[derive(Clone, Copy, PartialEq, Eq)]
pub(crate) struct Kind {
    pub(crate) class: usize,
    pub(crate) front: bool,
}

impl Kind {
    /// Whether both are the same.
    pub(crate) fn is(&self, other: &Kind) -> bool
        ensures { IsTrue result ↔ (self.now ≡ other.now) }
    {
        self == other
    }
}

/// The lanes of all portals, with their kinds, and for each plane which lanes have corners on its sides.
#[derive(Drop)]
pub(crate) struct Table {
    pub(crate) lanes: Vec<Lane>,
    pub(crate) kinds: Vec<Kind>,
    pub(crate) beside: Vec<Beside>,
}

impl Table {
    /// The table of a world.
    pub(crate) fn of(alloc: Global, world: &World) -> Result<Table, AllocError>
        ensures { IfOk result (λ table. IsTable world.now.portals table.lanes.items table.kinds.items table.beside.items) }
    {
        let lanes = lanes(alloc, world)?;
        let Classes { kinds, planes } = classes_of(alloc, &lanes)?;
        let beside = besides(alloc, world, &lanes, &planes)?;
        Ok(Table {
            lanes,
            kinds,
            beside,
        })
    }

    /// The lanes with a corner strictly in front of a turned plane.
    pub(crate) fn ahead(&self, kind: &Kind) -> &BitRow
        requires { kind.now.class < length self.now.beside.items }
        ensures { result.now ≡ ahead self.now.beside.items kind.now }
    {
        let beside = &self.beside[kind.class];
        if kind.front {
            &beside.front
        } else {
            &beside.behind
        }
    }

    /// The lanes with a corner strictly behind a turned plane.
    pub(crate) fn back(&self, kind: &Kind) -> &BitRow
        requires { kind.now.class < length self.now.beside.items }
        ensures { result.now ≡ back self.now.beside.items kind.now }
    {
        let beside = &self.beside[kind.class];
        if kind.front {
            &beside.behind
        } else {
            &beside.front
        }
    }
}

/// The kinds of some lanes, and the planes whose places they name.
#[derive(Drop)]
struct Classes {
    kinds: Vec<Kind>,
    planes: Vec<Plane>,
}

/// The kinds of lanes that stand in the order of their planes.
fn classes_of(alloc: Global, lanes: &[Lane]) -> Result<Classes, AllocError>
    ensures { IfOk result (λ classes. AreClasses lanes.now (length lanes.now) classes.kinds.items classes.planes.items) }
{
    let mut kinds = Vec::new(alloc);
    let mut planes = Vec::new(alloc);
    for k in 0..lanes.len() {
        add_plane(&mut planes, lanes, k)?;
        kinds.push(Kind {
            class: planes.len() - 1,
            front: lanes[k].front,
        })?;
    }
    Ok(Classes { kinds, planes })
}

/// Adds the plane of a lane, if it is not the last one already.
fn add_plane(planes: &mut Vec<Plane>, lanes: &[Lane], k: usize) -> Result<(), AllocError>
    requires lane { k < length lanes.now }
    requires before { (place : ℕ) → k ≡ place + 1 → IsLastPlaneOf lanes.now place planes.old.items }
    ensures { OnOk result (IsPlaneAdded lanes.now k planes.old.items planes.new.items) }
{
    if !has_plane_before(lanes, k) {
        planes.push(lanes[k].plane)?;
    }
    Ok(())
}

/// Whether the lane before has the same plane.
fn has_plane_before(lanes: &[Lane], k: usize) -> bool
    requires { k < length lanes.now }
    ensures { IsTrue result → HasPlaneBefore lanes.now k }
{
    k > 0 && are_same(&lanes[k - 1].plane, &lanes[k].plane)
}

/// Whether two planes are the same, to the same side.
fn are_same(first: &Plane, second: &Plane) -> bool
    ensures { IsTrue result ↔ (first.now ≡ second.now) }
{
    let _ = &first.nx;
    let _ = &second.nx;
    first == second
}
