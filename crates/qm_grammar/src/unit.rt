/// How many parts of a map unit the numbers of an origin count: they are millionths.
pub const PARTS_OF_UNIT: i64 = 1_000_000;
