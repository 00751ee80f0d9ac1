//! From a tree to the rows of its leaves.

ghost use Rattle.std.specs.Prelude.{◌≡◌, length, IfOk, IfSome};
ghost use Rattle.qm_grammar.specs.Valid.{IsValidMap};
ghost use Rattle.qm_partition.specs.Counting.{leaf_count};
ghost use Rattle.qm_partition.specs.Ways.{HasPoints};
ghost use Rattle.qm_contacts.specs.Contacts.{AreContacts};

use qm_base::base;
use qm_bits::BitRow;
use qm_flood::{Flood, Origin, flood};
use qm_map::EntityOrigin;
use qm_mapfile::MapFile;
use qm_portal::{TouchList, World, touches, world};
use qm_rows::{leaf_rows, seen};
use qm_tree::Tree;
use std::alloc::{AllocError, Global};
use std::io;

/// Goes on from a tree to a phase.
pub fn rows_up_to<R: AllocGlobal + Print>(
    rt: &R,
    phase: &str,
    map: &MapFile,
    tree: Tree,
) -> io::Result<()>
    requires map { IsValidMap map.now }
    requires points { HasPoints tree }
{
    let world = filled_world(rt.alloc(), map, tree)?;
    if phase == "world" {
        return println!(rt; "leaves {}, portals {}", world.leaves(), world.portals());
    }
    let coarse = base(rt.alloc(), &world)?;
    if phase == "base" {
        return println!(rt; "bits {}", seen(coarse.as_slice()));
    }
    let rows = leaf_rows(rt.alloc(), &world, coarse.as_slice())?;
    println!(rt; "seen {}", seen(rows.as_slice()))
}

/// The world of the tree, filled where an entity is that does not leak.
fn filled_world(alloc: Global, map: &MapFile, tree: Tree) -> Result<World, AllocError>
    requires map { IsValidMap map.now }
    requires points { HasPoints tree }
{
    let contacts = touches(alloc, &tree)?;
    match filled(alloc, map, &tree, &contacts)? {
        Some(row) => world(alloc, &tree.with_filled(&row), &contacts),
        None => world(alloc, &tree, &contacts),
    }
}

/// The leaves that the outside reaches, by the first entity that takes part and does not leak.
fn filled(
    alloc: Global,
    map: &MapFile,
    tree: &Tree,
    contacts: &TouchList,
) -> Result<Option<BitRow>, AllocError>
    requires map { IsValidMap map.now }
    requires contacts { AreContacts tree.now contacts.now }
    ensures { IfOk result (λ found. IfSome found (λ row. length row ≡ leaf_count tree.now.shape)) }
{
    let entities = map.entities.as_slice();
    for k in 1..entities.len() {
        if let Some(point) = entities[k].origin() {
            let origins = [Origin {
                entity: k as u64,
                point,
            }];
            if let Flood::Sealed(row) = flood(alloc, contacts, tree, &origins)? {
                return Ok(Some(row));
            }
        }
    }
    Ok(None)
}
