//! Numbers and points in fewer bits, as lists of many keep them.

/// A whole point, by 16 bits an axis.
#[derive(Clone, Copy)]
pub(crate) struct PackedPoint {
    x: i16,
    y: i16,
    z: i16,
}

impl PackedPoint {
    /// The point that is nearest to a point, axis by axis: the very point, unless it lies outside the cube or on an upper face.
    pub(crate) fn of(at: &[i32; 3]) -> PackedPoint {
        PackedPoint {
            x: packed_coordinate(at[0]),
            y: packed_coordinate(at[1]),
            z: packed_coordinate(at[2]),
        }
    }

    /// The point.
    pub(crate) fn point(&self) -> [i32; 3] {
        [i32::from(self.x), i32::from(self.y), i32::from(self.z)]
    }
}

fn packed_coordinate(coordinate: i32) -> i16 {
    coordinate.max(-32_768).min(32_767) as i16
}

/// A number in 32 bits, or the greatest of these.
pub(crate) fn packed(number: u64) -> u32 {
    number.min(4_294_967_295) as u32
}
