//! Boxes, and worlds of them.

use crate::faces::{points_across, put_face};
use std::alloc::{AllocError, Global};

/// A box, by its least corner and its greatest.
pub type BoxRow = ([i32; 3], [i32; 3]);

/// The text of a world of boxes of stone.
pub fn text_of(alloc: Global, boxes: &[BoxRow]) -> Result<String, AllocError> {
    let mut text = String::new(alloc);
    text.push_str("{\n")?;
    put_boxes(&mut text, "stone", boxes)?;
    text.push_str("}\n")?;
    Ok(text)
}

/// The text of a world of a box, and of twenty boxes in a row on each side of it along x.
pub fn boxes_on_both_sides(alloc: Global) -> Result<String, AllocError> {
    let mut text = String::new(alloc);
    text.push_str("{\n")?;
    put_box(&mut text, "stone", [0, 0, 0], [16, 16, 16])?;
    for number in 0..20_u8 {
        let near = 32 * i32::from(number) + 64;
        let far = near + 16;
        put_box(&mut text, "stone", [near, 0, 0], [far, 16, 16])?;
        put_box(&mut text, "stone", [-far, 0, 0], [-near, 16, 16])?;
    }
    text.push_str("}\n")?;
    Ok(text)
}

/// Adds boxes with a texture.
pub fn put_boxes(text: &mut String, texture: &str, boxes: &[BoxRow]) -> Result<(), AllocError> {
    for (least, greatest) in boxes {
        put_box(text, texture, *least, *greatest)?;
    }
    Ok(())
}

/// Adds a box with a texture, between its least corner and its greatest.
pub fn put_box(
    text: &mut String,
    texture: &str,
    least: [i32; 3],
    greatest: [i32; 3],
) -> Result<(), AllocError> {
    let [west, south, bottom] = least;
    let [east, north, top] = greatest;
    text.push_str("{\n")?;
    put_face(text, texture, points_across(0, west))?;
    put_face(text, texture, points_across(1, east))?;
    put_face(text, texture, points_across(2, south))?;
    put_face(text, texture, points_across(3, north))?;
    put_face(text, texture, points_across(4, bottom))?;
    put_face(text, texture, points_across(5, top))?;
    text.push_str("}\n")
}
