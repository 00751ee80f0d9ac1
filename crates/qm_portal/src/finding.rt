ghost use Rattle.std.specs.Prelude.{IfOk};
ghost use Rattle.qm_partition.specs.Ways.{HasPoints};
ghost use Rattle.qm_contacts.specs.Contacts.{AreContacts};
ghost use Rattle.qm_portal.specs.inner.Walks.{IsCubeCell};

use crate::cell::DueCell;
use crate::touch_list::TouchList;
use crate::walk::found_below;
use qm_body::{facets_of, walls_of};
use qm_tree::Tree;
use qm_wind::Winding;
use std::alloc::{AllocError, Global};

/// All contacts of a tree each of whose leaves has a point: its touching pairs, each with the polygon of its contact, and
/// its leaves that touch the outside.
pub fn touches(alloc: Global, tree: &Tree) -> Result<TouchList, AllocError>
    requires points { HasPoints tree.now }
    ensures { IfOk result (λ contacts. AreContacts tree.now contacts) }
{
    let cube = cube_cell(alloc, tree)?;
    let found = found_below(alloc, tree, cube)?;
    let list = TouchList::of(alloc, found.pairs, &found.outside)?;
    Ok(list)
}

/// The cell with which a tree begins: the whole cube.
fn cube_cell(alloc: Global, tree: &Tree) -> Result<DueCell, AllocError>
    ensures { IfOk result (IsCubeCell tree.now) }
{
    let faces = Winding::faces(alloc)?;
    let on_walls = facets_of(faces)?;
    let bounds = walls_of(alloc, &on_walls)?;
    Ok(DueCell {
        child: tree.root(),
        bounds,
        on_walls,
    })
}
