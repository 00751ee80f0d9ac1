//! Generated worlds: a room that two walls with doors divide, and pillars, some of them askew, and some of water.

use std::alloc::{AllocError, Global};
use test_numbers::Random;
use test_texts::{BoxRow, points_across, put_box, put_boxes, put_face};

/// The floor, the ceiling and the four walls around.
static SHELL: [BoxRow; 6] = [
    ([-208, -208, -16], [208, 208, 0]),
    ([-208, -208, 96], [208, 208, 112]),
    ([-208, -208, 0], [-192, 208, 96]),
    ([192, -208, 0], [208, 208, 96]),
    ([-192, -208, 0], [192, -192, 96]),
    ([-192, 192, 0], [192, 208, 96]),
];

/// The corners of pillars round their middles, against the clock as seen from above.
static OUTLINES: [[[i32; 2]; 4]; 4] = [
    [[-24, -24], [24, -24], [24, 24], [-24, 24]],
    [[0, -28], [28, 0], [0, 28], [-28, 0]],
    [[-8, -24], [24, -8], [8, 24], [-24, 8]],
    [[-24, -16], [24, -24], [16, 24], [-8, 24]],
];

static TEXTURES: [&str; 4] = ["stone", "*water1", "stone", "stone"];

/// The text of a world with so many pillars, and with an entity in a corner where none stands.
pub fn maze(alloc: Global, random: &mut Random, pillars: u64) -> Result<String, AllocError> {
    let mut text = String::new(alloc);
    text.push_str("{\n")?;
    put_boxes(&mut text, "stone", &SHELL)?;
    put_walls(&mut text, random)?;
    for _ in 0..pillars {
        put_pillar(&mut text, random)?;
    }
    text.push_str("}\n{\n\"origin\" \"-184 -184 8\"\n}\n")?;
    Ok(text)
}

/// A wall from south to north, and one from there to the east, each with a door under a lintel.
fn put_walls(text: &mut String, random: &mut Random) -> Result<(), AllocError> {
    let door = 8 * (random.next() % 40) as i32 - 176;
    let top = 8 * (random.next() % 6) as i32 + 48;
    put_box(text, "stone", [-72, -192, 0], [-56, door, 96])?;
    put_box(text, "stone", [-72, door + 48, 0], [-56, 192, 96])?;
    put_box(text, "stone", [-72, door, top], [-56, door + 48, 96])?;
    let door = 8 * (random.next() % 20) as i32 - 40;
    let top = 8 * (random.next() % 6) as i32 + 48;
    put_box(text, "stone", [-56, 56, 0], [door, 72, 96])?;
    put_box(text, "stone", [door + 48, 56, 0], [192, 72, 96])?;
    put_box(text, "stone", [door, 56, top], [door + 48, 72, 96])
}

/// A pillar on the floor.
fn put_pillar(text: &mut String, random: &mut Random) -> Result<(), AllocError> {
    let middle = [
        8 * (random.next() % 32) as i32 - 128,
        8 * (random.next() % 32) as i32 - 128,
    ];
    let top = 16 * (random.next() % 5) as i32 + 32;
    let texture = TEXTURES[(random.next() % 4) as usize];
    let outline = OUTLINES[(random.next() % 4) as usize];
    text.push_str("{\n")?;
    for i in 0..4 {
        put_side(text, texture, middle, outline[i], outline[(i + 1) % 4])?;
    }
    put_face(text, texture, points_across(4, 0))?;
    put_face(text, texture, points_across(5, top))?;
    text.push_str("}\n")
}

/// The side of a pillar from one of its corners to the next.
fn put_side(
    text: &mut String,
    texture: &str,
    middle: [i32; 2],
    corner: [i32; 2],
    next: [i32; 2],
) -> Result<(), AllocError> {
    let x = middle[0].saturating_add(corner[0]);
    let y = middle[1].saturating_add(corner[1]);
    let next_x = middle[0].saturating_add(next[0]);
    let next_y = middle[1].saturating_add(next[1]);
    put_face(text, texture, [[x, y, -1], [x, y, 0], [next_x, next_y, 0]])
}

/// A whole point in the room.
pub fn point(random: &mut Random) -> [i32; 3] {
    [
        (random.next() % 383) as i32 - 191,
        (random.next() % 383) as i32 - 191,
        (random.next() % 95) as i32 + 1,
    ]
}
