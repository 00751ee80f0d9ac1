//! The brushes that may own points of each plane, in rows.

ghost use Rattle.std.specs.Prelude.{◌≡◌, ◌<◌, ◌^◌, ◌*◌, ◌&&◌, [], length, All, IfOk, OnOk};
ghost use Rattle.qm_contacts.specs.NumberedLeaves.{is_solid};
ghost use Rattle.qm_solids.specs.Outward.{AreNumberedIn};
ghost use Rattle.qm_solids.specs.InBook.{solid_at, IsBookOf};
ghost use Rattle.qm_faces.specs.inner.Rows.{key_of, row_of, AreOwnerRows, IsBrushAdded, AreFacesAdded, IsFaceAdded, IsOwnerPushed};

use crate::owners::{Owner, first_towards};
use qm_brush::BrushList;
use qm_contents::Contents;
use qm_geom::Plane;
use qm_solids::FaceRef;
use std::alloc::{AllocError, Global};
use std::marker::Model;

/// The brushes that may own points of a plane, where the rock is on one side, each with its face.
#[derive(Drop)]
pub(crate) struct Row {
    owners: Vec<Owner>,
}

impl Model for Row {
    ghost use Rattle.std.specs.Prelude.{List};
    ghost use Rattle.qm_surface.specs.Owner.{FaceOwner};

    ghost Value = { List FaceOwner };

    ghost view = { λ row. row.owners.items };
}

impl Row {
    pub(crate) fn owners(&self) -> &[Owner]
        ensures { result.now ≡ self.now }
    {
        &self.owners
    }
}

/// The place of the row of a plane's side.
fn key(plane: u32, side: bool) -> usize
    ensures { result ≡ key_of plane side }
{
    let first = plane as usize * 2;
    if side { first + 1 } else { first }
}

/// The owners on one side of a plane.
pub(crate) fn owners_on(rows: &[Row], plane: u32, side: bool) -> &[Owner]
    requires { key_of plane side < length rows.now }
    ensures { result.now ≡ row_of rows.now plane side }
{
    rows[key(plane, side)].owners()
}

/// The rows of all planes, by the brushes of a list.
pub(crate) fn owner_rows(
    alloc: Global,
    list: &BrushList,
    planes: &[Plane],
) -> Result<Vec<Row>, AllocError>
    requires book { IsBookOf planes.now list.now }
    requires few { length planes.now < 2 ^ 32 }
    ensures { IfOk result (λ rows. AreOwnerRows (length planes.now) list.now rows.items) }
{
    let mut rows = empty_rows(alloc, planes.len())?;
    for brush in 0..list.len() {
        add_brush(list, brush, planes, &mut rows)?;
    }
    Ok(rows)
}

/// Two rows for each of so many planes, without owners.
fn empty_rows(alloc: Global, planes: usize) -> Result<Vec<Row>, AllocError>
    requires { planes < 2 ^ 32 }
    ensures count { IfOk result (λ rows. length rows.items ≡ 2 * planes) }
    ensures empty { IfOk result (λ rows. All (λ row. row ≡ []) rows.items) }
{
    let mut rows = Vec::with_capacity(alloc, planes * 2)?;
    for _ in 0..planes * 2 {
        rows.push(Row {
            owners: Vec::new(alloc),
        })?;
    }
    Ok(rows)
}

/// Whether a brush may own points at all: it is full and solid.
fn may_own(list: &BrushList, brush: u64) -> bool
    requires { brush < length list.now }
    ensures { result ≡ ((solid_at list.now brush).full && is_solid (solid_at list.now brush).contents) }
{
    list.full(brush) && list.contents(brush) == Contents::Solid
}

/// Adds a brush to the rows of the planes on which it may own points.
fn add_brush(
    list: &BrushList,
    brush: u64,
    planes: &[Plane],
    rows: &mut Vec<Row>,
) -> Result<(), AllocError>
    requires book { IsBookOf planes.now list.now }
    requires brush { brush < length list.now }
    requires count { length rows.old.items ≡ 2 * length planes.now }
    ensures { OnOk result (IsBrushAdded (length planes.now) (solid_at list.now brush) brush rows.old.items rows.new.items) }
{
    if !may_own(list, brush) {
        return Ok(());
    }
    add_faces(list.faces(brush), brush, planes, rows)
}

/// Adds a brush to the rows of its faces, to each once, by the first of its faces there.
fn add_faces(
    faces: &[FaceRef],
    brush: u64,
    planes: &[Plane],
    rows: &mut Vec<Row>,
) -> Result<(), AllocError>
    requires numbered { AreNumberedIn planes.now faces.now }
    requires few { length faces.now < 2 ^ 32 }
    requires count { length rows.old.items ≡ 2 * length planes.now }
    ensures { OnOk result (AreFacesAdded (length planes.now) faces.now brush rows.old.items rows.new.items) }
{
    for i in 0..faces.len() {
        add_face(faces, i, brush, planes, rows)?;
    }
    Ok(())
}

/// Adds a brush to the row of one of its faces, unless a face before is of that row.
fn add_face(
    faces: &[FaceRef],
    i: usize,
    brush: u64,
    planes: &[Plane],
    rows: &mut Vec<Row>,
) -> Result<(), AllocError>
    requires numbered { AreNumberedIn planes.now faces.now }
    requires few { length faces.now < 2 ^ 32 }
    requires face { i < length faces.now }
    requires count { length rows.old.items ≡ 2 * length planes.now }
    ensures { OnOk result (IsFaceAdded (length planes.now) faces.now i brush rows.old.items rows.new.items) }
{
    let face = faces[i];
    let side = !face.out_is_front;
    if first_towards(face.plane, side, &faces[..i]).is_some() {
        return Ok(());
    }
    let owner = Owner {
        brush,
        face: i as u32,
    };
    push_owner(rows, key(face.plane, side), owner)
}

/// Adds an owner to a row.
fn push_owner(rows: &mut Vec<Row>, place: usize, owner: Owner) -> Result<(), AllocError>
    requires { place < length rows.old.items }
    ensures { OnOk result (IsOwnerPushed place owner rows.old.items rows.new.items) }
{
    rows[place].owners.push(owner)?;
    Ok(())
}
