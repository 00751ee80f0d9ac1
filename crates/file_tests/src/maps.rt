//! A map as an editor writes it, read, and printed in the fixed form.

use qm_map::{MapFault, parse};
use qm_mapout::print;
use std::alloc::{AllocError, Global};
use std::test::Fail;

/// A world with one face, as an editor writes it, and a door.
const ROOM: &[u8] = b"// Game: Quake\r
// Format: Valve\r
// entity 0\r
{\r
\"mapversion\" \"220\"\r
\"message\" \"two\r
lines\"\r
// brush 0\r
{\r
( -64.000 -64 -16 ) ( -64 -63 -16 ) ( -64 -64 -15 ) {fence_\xff [ 0 -1 0 -32.5 ] [ 0 0 -1 16 ] 0 1 1.25\r
}\r
}\r
{\r
\"classname\"\"func_door\"\r
{ ( 0 0 0 ) ( 0 1 0 ) ( 0 0 1 ) \"with a blank, and long\" 0 8 90 1 -1\r
( 1 0 0 ) ( 1 0 1 ) ( 1 1 0 ) //skip\r
*water 0 0 0 1 1 } }\r
";

/// Its map in the fixed form, behind other bytes.
const PRINTED: &[u8] = b"old
{
\"mapversion\" \"220\"
\"message\" \"two\r
lines\"
{
( -64 -64 -16 ) ( -64 -63 -16 ) ( -64 -64 -15 ) {fence_\xff [ 0 -1 0 -32.5 ] [ 0 0 -1 16 ] 0 1 1.25
}
}
{
\"classname\" \"func_door\"
{
( 0 0 0 ) ( 0 1 0 ) ( 0 0 1 ) \"with a blank, and long\" 0 8 90 1 -1
( 1 0 0 ) ( 1 0 1 ) ( 1 1 0 ) *water 0 0 0 1 1
}
}
";

/// What a list holds after the map of a text is printed to it, or what it held where the text means no map.
fn printed_behind(alloc: Global, old: &[u8], text: &[u8]) -> Result<Vec<u8>, AllocError> {
    let mut out = Vec::from_slice(alloc, old)?;
    match parse(alloc, text) {
        Ok(map) => print(alloc, &map, &mut out)?,
        Err(MapFault::Memory) => return Err(AllocError),
        Err(_) => {}
    }
    Ok(out)
}

#[test]
fn a_room_is_read_and_printed(rt: HostRuntime) -> Result<(), Fail> {
    let alloc = rt.alloc();
    let behind = printed_behind(alloc, b"old\n", ROOM)?;
    let alone = printed_behind(alloc, b"", ROOM)?;
    assert!(rt; behind.as_slice() == PRINTED && PRINTED.get(4..) == Some(alone.as_slice()));
    Ok(())
}
