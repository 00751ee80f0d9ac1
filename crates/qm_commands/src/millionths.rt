/// A place, by its coordinates in millionths of a map unit.
#[derive(Clone, Copy)]
pub struct Millionths {
    pub x: i64,
    pub y: i64,
    pub z: i64,
}
