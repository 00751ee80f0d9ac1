ghost use Rattle.std.specs.Prelude.{◌≡◌, ◌≤◌, ◌↔◌, List, [], ◌∷◌, IfOk};
ghost use Rattle.qm_partition.specs.Tree.{Tree};
ghost use Rattle.qm_contacts.specs.Leak.{Origin};
ghost use Rattle.qm_statement.specs.Built.{IsBuilt};
ghost use Rattle.qm_statement.specs.CompiledMap.{NoneLeaks};
ghost use Rattle.qm_rooms.specs.Rooms.{IsRoomCount, boxed_world, room_boxes, rooms_map};
ghost use Rattle.qm_grammar.specs.Valid.{IsValidMap};

use crate::entities::{boxed_world, player_start};
use crate::gen_fault::GenFault;
use crate::room_list::room_boxes;
use qm_lists::Items;
use qm_mapfile::{Entity, MapFile};
use std::alloc::{AllocError, Global};

/// The most rooms that a map may have.
const MOST_ROOMS: u32 = 64;

/// The map of so many rooms in a row, with a start of a player in the first. The number says where their doorways are.
pub fn rooms(alloc: Global, n: u32, number: u64) -> Result<MapFile, GenFault>
    ensures map { IfOk result (λ map. (map ≡ rooms_map n number) × (1 ≤ n) × (n ≤ 64)) }
    ensures valid { IfOk result (λ map. IsValidMap map) }
    ensures no_leak { IfOk result (λ map. (tree : Tree) (origins : List Origin) → IsBuilt map tree origins → NoneLeaks tree origins) }

    // Only want of memory has no cause.
    ensures size { (result ≡ Err GenFault.SizeRange) ↔ (IsRoomCount n → ⊥) }
{
    if n < 1 || n > MOST_ROOMS {
        return Err(GenFault::SizeRange);
    }
    Ok(rooms_map(alloc, n, number)?)
}

#[tactic(auto, unfolding(qm_rooms::specs::Rooms::rooms_map))]
fn rooms_map(alloc: Global, n: u32, number: u64) -> Result<MapFile, AllocError>
    requires some { 1 ≤ n }
    requires few { n ≤ 64 }
    ensures { IfOk result (λ map. map ≡ rooms_map n number) }
{
    let world = rooms_world(alloc, n, number)?;
    let start = player_start(alloc)?;
    let entities = in_turn(alloc, world, start)?;
    Ok(MapFile {
        entities: Items::from_vec(entities),
    })
}

/// The world of so many rooms.
fn rooms_world(alloc: Global, n: u32, number: u64) -> Result<Entity, AllocError>
    requires some { 1 ≤ n }
    requires few { n ≤ 64 }
    ensures { IfOk result (λ world. world ≡ boxed_world (room_boxes n number)) }
{
    let boxes = room_boxes(alloc, n, number)?;
    boxed_world(alloc, &boxes)
}

fn in_turn(alloc: Global, world: Entity, start: Entity) -> Result<Vec<Entity>, AllocError>
    ensures { IfOk result (λ entities. entities.items ≡ world ∷ start ∷ []) }
{
    let mut entities = Vec::new(alloc);
    entities.push(world)?;
    entities.push(start)?;
    Ok(entities)
}
