//! The boxes of a row of rooms.

ghost use Rattle.std.specs.Prelude.{◌≡◌, ◌<◌, ◌≤◌, [], ◌∷◌, ◌++◌, IfOk, OnOk, if◌then◌else◌};
ghost use Rattle.qm_rooms.specs.Rooms.{east_end, hull_boxes, wall_part, doorway_place, doorway_south, open_wall, open_walls, room_boxes};

use crate::stone_box::StoneBox;
use std::alloc::{AllocError, Global};

/// How many rooms have doorways of their own: then the digits of the number begin again.
const OWN_DOORWAYS: u32 = 32;

/// Where the last room's wall ends in the east.
fn east_end(rooms: u32) -> i16
    requires { rooms ≤ 64 }
    ensures { result ≡ east_end rooms }
{
    112 * rooms as i16 - 3584
}

/// The floor, the ceiling, and the walls to the south, north and west.
#[tactic(auto, unfolding(qm_rooms::specs::Rooms::hull_boxes))]
fn hull_boxes(rooms: u32) -> [StoneBox; 5]
    requires { rooms ≤ 64 }
    ensures { result ≡ hull_boxes rooms }
{
    let east = east_end(rooms);
    [
        StoneBox {
            west: -3600,
            south: -80,
            bottom: -16,
            east,
            north: 80,
            top: 0,
        },
        StoneBox {
            west: -3600,
            south: -80,
            bottom: 96,
            east,
            north: 80,
            top: 112,
        },
        StoneBox {
            west: -3600,
            south: -80,
            bottom: 0,
            east,
            north: -64,
            top: 96,
        },
        StoneBox {
            west: -3600,
            south: 64,
            bottom: 0,
            east,
            north: 80,
            top: 96,
        },
        StoneBox {
            west: -3600,
            south: -64,
            bottom: 0,
            east: -3584,
            north: 64,
            top: 96,
        },
    ]
}

/// A part of a room's wall, up to the ceiling.
#[tactic(auto, unfolding(qm_rooms::specs::Rooms::wall_part))]
fn wall_part(room: u32, south: i16, north: i16, bottom: i16) -> StoneBox
    requires { room < 64 }
    ensures { result ≡ wall_part room south north bottom }
{
    let west = 112 * room as i16 - 3488;
    StoneBox {
        west,
        south,
        bottom,
        east: west + 16,
        north,
        top: 96,
    }
}

/// Which of the four places the doorway of a room has.
#[tactic(auto, unfolding(qm_rooms::specs::Rooms::doorway_place))]
fn doorway_place(number: u64, room: u32) -> u32
    ensures place { result ≡ doorway_place number room }
    ensures one_of_four { result < 4 }
{
    (number / 4u64.pow(room % OWN_DOORWAYS) % 4) as u32
}

/// Where the doorway at a place begins in the south.
fn doorway_south(place: u32) -> i16
    requires { place ≤ 4 }
    ensures { result ≡ doorway_south place }
{
    32 * place as i16 - 64
}

/// Adds a box, unless it is absent.
fn push_unless(
    boxes: &mut Vec<StoneBox>,
    is_absent: bool,
    stone: StoneBox,
) -> Result<(), AllocError>
    ensures { OnOk result (boxes.new.items ≡ boxes.old.items ++ (if is_absent then [] else stone ∷ [])) }
{
    if !is_absent {
        boxes.push(stone)?;
    }
    Ok(())
}

/// Adds a wall with a doorway at a place.
fn push_open_wall(boxes: &mut Vec<StoneBox>, room: u32, place: u32) -> Result<(), AllocError>
    requires room { room < 64 }
    requires place { place < 4 }
    ensures { OnOk result (boxes.new.items ≡ boxes.old.items ++ open_wall room place) }
{
    let south = doorway_south(place);
    let north = doorway_south(place + 1);
    push_unless(boxes, place == 0, wall_part(room, -64, south, 0))?;
    push_unless(boxes, place == 3, wall_part(room, north, 64, 0))?;
    boxes.push(wall_part(room, south, north, 64))?;
    Ok(())
}

/// Adds the walls of the first rooms, each with its doorway.
fn push_open_walls(boxes: &mut Vec<StoneBox>, rooms: u32, number: u64) -> Result<(), AllocError>
    requires { rooms < 64 }
    ensures { OnOk result (boxes.new.items ≡ boxes.old.items ++ open_walls rooms number) }
{
    for room in 0..rooms {
        push_open_wall(boxes, room, doorway_place(number, room))?;
    }
    Ok(())
}

/// All boxes of so many rooms.
pub(crate) fn room_boxes(
    alloc: Global,
    rooms: u32,
    number: u64,
) -> Result<Vec<StoneBox>, AllocError>
    requires some { 1 ≤ rooms }
    requires few { rooms ≤ 64 }
    ensures { IfOk result (λ boxes. boxes.items ≡ room_boxes rooms number) }
{
    let last = rooms - 1;
    let mut boxes = Vec::from_slice(alloc, &hull_boxes(rooms))?;
    push_open_walls(&mut boxes, last, number)?;
    boxes.push(wall_part(last, -64, 64, 0))?;
    Ok(boxes)
}
