//! Faces by their points, and points of the sides of a box.

use std::alloc::AllocError;

/// Adds a face through three points, with a texture.
pub fn put_face(text: &mut String, texture: &str, points: [[i32; 3]; 3]) -> Result<(), AllocError> {
    for [x, y, z] in points {
        write!(text, "( {x} {y} {z} ) ")?;
    }
    put_texture(text, texture)
}

/// The same, of points in thousandths of a map unit.
pub fn put_fine_face(
    text: &mut String,
    texture: &str,
    points: [[i32; 3]; 3],
) -> Result<(), AllocError> {
    for [x, y, z] in points {
        text.push_str("( ")?;
        put_thousandths(text, x)?;
        put_thousandths(text, y)?;
        put_thousandths(text, z)?;
        text.push_str(") ")?;
    }
    put_texture(text, texture)
}

/// The end of a face.
fn put_texture(text: &mut String, texture: &str) -> Result<(), AllocError> {
    writeln!(text, "{texture} 0 0 0 1 1")
}

/// A number of thousandths with three decimals, and a space.
fn put_thousandths(text: &mut String, number: i32) -> Result<(), AllocError> {
    if number < 0 {
        text.push_str("-")?;
    }
    let magnitude = number.unsigned_abs();
    let whole = magnitude / 1000;
    let rest = magnitude % 1000;
    write!(text, "{whole}.{rest:03} ")
}

/// Three points of a side of a box, in whatever unit: the sides to the west, east, south, north, bottom and top.
pub fn points_across(side: u64, at: i32) -> [[i32; 3]; 3] {
    match side {
        0 => [[at, 0, 0], [at, 1, 0], [at, 0, 1]],
        1 => [[at, 0, 0], [at, 0, 1], [at, 1, 0]],
        2 => [[0, at, 0], [0, at, 1], [1, at, 0]],
        3 => [[0, at, 0], [1, at, 0], [0, at, 1]],
        4 => [[0, 0, at], [1, 0, at], [0, 1, at]],
        _ => [[0, 0, at], [0, 1, at], [1, 0, at]],
    }
}
