//! What is known of a map before rows are found.

ghost use Rattle.std.specs.Prelude.{◌≡◌, [], IfOk, length};
ghost use Rattle.qm_grammar.specs.Valid.{IsValidMap};
ghost use Rattle.qm_partition.specs.Counting.{leaf_count};
ghost use Rattle.qm_contacts.specs.Contacts.{AreContacts};
ghost use Rattle.qm_compiler.specs.inner.Counted.{IsTreeOfBrushes};
ghost use Rattle.qm_compiler.specs.inner.Flooded.{FitsTree, IsFloodOfMap};
ghost use Rattle.qm_compiler.specs.inner.Prepared.{IsPrepared, IsPreparedForEachMap, IsMarkedWith};

use crate::building::Built;
use crate::entity_origins::origins_of;
use crate::new_file::new_file;
use qm_bits::BitRow;
use qm_file::{Section, TreeFile};
use qm_flood::{Flood, flood};
use qm_lists::Items;
use qm_mapfile::MapFile;
use qm_portal::{TouchList, World, world};
use qm_tree::Tree;
use std::alloc::{AllocError, Global};

/// What is known of a map before rows are found.
#[derive(Drop)]
pub enum Prepared {
    /// No entity leaks: what was built, with filled leaves, and its world; and whether an entity takes part.
    Marked {
        sealed: bool,
        built: Built,
        world: World,
    },
    /// An entity leaks, with its trail.
    Leak {
        file: TreeFile,
        entity: u64,
        trail: Items<u64>,
    },
}

/// Looks for leaks in the tree of a map by the contacts of the tree, and fills what no entity reaches.
pub fn prepare(
    alloc: Global,
    map: &MapFile,
    built: Built,
    contacts: &TouchList,
) -> Result<Prepared, AllocError>
    requires valid { IsValidMap map.now }
    requires built { IsTreeOfBrushes map.now built.tree built.brushes built.flat }
    requires contacts { AreContacts built.tree contacts.now }
    ensures { IfOk result (λ prepared. IsPrepared map.now contacts.now prepared) }
{
    let found = flood_map(alloc, map, &built.tree, contacts);
    prepare_found(alloc, built, contacts, found)
}

/// What is found of the entities of a map in its tree.
fn flood_map(
    alloc: Global,
    map: &MapFile,
    tree: &Tree,
    contacts: &TouchList,
) -> Result<Flood, AllocError>
    requires valid { IsValidMap map.now }
    requires contacts { AreContacts tree.now contacts.now }
    ensures { IfOk result (λ found. IsFloodOfMap map.now tree.now found) }
{
    let origins = origins_of(alloc, map)?;
    flood(alloc, contacts, tree, &origins)
}

/// What a tree comes to where this was found of the entities in it, if there was memory to find it.
fn prepare_found(
    alloc: Global,
    built: Built,
    contacts: &TouchList,
    found: Result<Flood, AllocError>,
) -> Result<Prepared, AllocError>
    requires contacts { AreContacts built.tree contacts.now }
    requires fits { IfOk found (λ flood. FitsTree built.tree flood) }
    ensures { IfOk result (λ prepared. IsPreparedForEachMap built.tree built.brushes built.flat contacts.now found prepared) }
{
    match found? {
        Flood::Sealed(filled) => mark(alloc, true, built, contacts, Ok(filled)),
        Flood::NoEntity => {
            let unfilled = BitRow::with_len(alloc, built.tree.leaves());
            mark(alloc, false, built, contacts, unfilled)
        }
        Flood::Leak { entity, trail } => Ok(Prepared::Leak {
            file: new_file(built.tree, None, no_sections(alloc)),
            entity,
            trail,
        }),
    }
}

/// No sections; they take no memory.
fn no_sections(alloc: Global) -> Items<Section>
    ensures { result ≡ [] }
{
    Items::from_vec(Vec::new(alloc))
}

/// The tree in which the leaves of a row are filled, with its world, if there was memory for the row.
fn mark(
    alloc: Global,
    sealed: bool,
    built: Built,
    contacts: &TouchList,
    filled: Result<BitRow, AllocError>,
) -> Result<Prepared, AllocError>
    requires contacts { AreContacts built.tree contacts.now }
    requires one_each { IfOk filled (λ row. length row ≡ leaf_count built.tree.shape) }
    ensures { IfOk result (λ prepared. IsMarkedWith sealed built.tree built.brushes built.flat contacts.now filled prepared) }
{
    let filled = filled?;
    let tree = built.tree.with_filled(&filled);
    drop(filled);
    let world = world(alloc, &tree, contacts)?;
    Ok(Prepared::Marked {
        sealed,
        built: Built {
            tree,
            brushes: built.brushes,
            flat: built.flat,
        },
        world,
    })
}
