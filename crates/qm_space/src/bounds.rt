/// How far the world reaches on each axis: a map lies strictly between this coordinate and its opposite.
pub const WORLD_EXTENT: i32 = 32768;
