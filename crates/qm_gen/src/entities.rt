//! The entities of a map of rooms: the world, and the start of a player.

ghost use Rattle.std.specs.Prelude.{◌≡◌, [], ◌∷◌, codes, IfOk};
ghost use Rattle.qm_rooms.specs.Rooms.{pair_of, boxed_world, player_start};

use crate::stone::box_brushes;
use crate::stone_box::StoneBox;
use qm_lists::Parts;
use qm_mapfile::{Entity, Pair, Text};
use std::alloc::{AllocError, Global};

fn pair_of(alloc: Global, key: &[u8], value: &[u8]) -> Result<Pair, AllocError>
    ensures { IfOk result (λ pair. pair ≡ pair_of key.now value.now) }
{
    let key = Text::from_slice(alloc, key)?;
    let value = Text::from_slice(alloc, value)?;
    Ok(Pair { key, value })
}

/// The pairs of an entity of a class.
fn class_pairs(alloc: Global, class: &[u8]) -> Result<Vec<Pair>, AllocError>
    ensures { IfOk result (λ pairs. pairs.items ≡ pair_of (codes "classname") class.now ∷ []) }
{
    let pair = pair_of(alloc, b"classname", class)?;
    let mut pairs = Vec::new(alloc);
    pairs.push(pair)?;
    Ok(pairs)
}

fn parts_of<T: Drop>(alloc: Global, items: Vec<T>) -> Result<Parts<T>, AllocError>
    ensures { IfOk result (λ parts. parts ≡ items.items) }
{
    let none = Parts::none(alloc)?;
    Parts::from_vec(alloc, items, &none)
}

/// The world of these boxes.
#[tactic(auto, unfolding(qm_rooms::specs::Rooms::boxed_world))]
pub(crate) fn boxed_world(alloc: Global, boxes: &[StoneBox]) -> Result<Entity, AllocError>
    ensures { IfOk result (λ world. world ≡ boxed_world boxes.now) }
{
    let pairs = class_pairs(alloc, b"worldspawn")?;
    let brushes = box_brushes(alloc, boxes)?;
    Ok(Entity {
        pairs: parts_of(alloc, pairs)?,
        brushes: parts_of(alloc, brushes)?,
    })
}

/// The start of a player, in the middle of the first room.
pub(crate) fn player_start(alloc: Global) -> Result<Entity, AllocError>
    ensures { IfOk result (λ start. start ≡ player_start) }
{
    let origin = pair_of(alloc, b"origin", b"-3536 0 24")?;
    let mut pairs = class_pairs(alloc, b"info_player_start")?;
    pairs.push(origin)?;
    Ok(Entity {
        pairs: parts_of(alloc, pairs)?,
        brushes: Parts::none(alloc)?,
    })
}
