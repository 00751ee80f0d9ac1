//! The text of a map comes in pieces.

use super::outside::Outside;
use super::printed::ONE_ROOM;
use std::alloc::{AllocError, Global};
use std::test::Fail;
use std::thread::Threads;
use test_texts::{ROOM, put_boxes};

/// What an editor writes behind the points of a face. A comment takes the rest of the line, which other editors write.
const VALVE: &str = "__TB_empty [ 1 0 0 0 ] [ 0 -1 0 0 ] 0 0.5 0.25 //";

const HEAD: &str = "// Game: Quake
// Format: Valve
// entity 0
{
\"mapversion\" \"220\"
\"classname\" \"worldspawn\"
";

/// A face with decimals stands in the door.
const DOOR: &str = "}
{
\"classname\" \"info_player_start\"
\"origin\" \"0 0 24\"
}
{
\"classname\" \"func_door\"
{
( 64.000 0 0 ) ( 64.000 1 0 ) ( 64.000 0 1 ) __TB_empty [ 1 0 0 0 ] [ 0 -1 0 0 ] 0 0.5 0.25
}
}
";

/// The text of a sealed room with a door in a further entity, as an editor writes it: its lines end with two bytes.
fn room_text(alloc: Global) -> Result<Vec<u8>, AllocError> {
    let mut text = String::new(alloc);
    text.push_str(HEAD)?;
    put_boxes(&mut text, VALVE, &ROOM)?;
    text.push_str(DOOR)?;
    let mut bytes = Vec::new(alloc);
    for byte in text.as_bytes() {
        if *byte == b'\n' {
            bytes.push(b'\r')?;
        }
        bytes.push(*byte)?;
    }
    Ok(bytes)
}

/// How many bytes a read gives at most.
static MOST: [u64; 4] = [1, 2, 3, 65_536];

/// Whether a room that comes in pieces is compiled to the bytes that it gave before.
fn gives_in_pieces<R: AllocGlobal + Threads + Sync>(
    rt: &R,
    most: u64,
    text: &[u8],
    before: &Outside,
) -> Result<bool, AllocError> {
    let mut outside = Outside::new(rt.alloc(), text)?;
    outside.shelf.at_most(most.max(1));
    let says = outside.says(rt, &["compile", "map", "out"], 0, ONE_ROOM);
    Ok(says && outside.shelf.get("out") == before.shelf.get("out"))
}

/// The room as an editor writes it gives the same bytes whatever pieces it is read in.
#[test]
fn reads_a_room_in_pieces(rt: HostRuntime) -> Result<(), Fail> {
    let text = room_text(rt.alloc())?;
    let mut before = Outside::new(rt.alloc(), &text)?;
    let mut right = before.says(&rt, &["compile", "map", "out"], 0, ONE_ROOM);
    right &= before.has_long_out(595);
    for most in &MOST {
        right &= gives_in_pieces(&rt, *most, &text, &before)?;
    }
    assert!(rt; right);
    Ok(())
}
