/// The most bytes that a text may have.
pub const TEXT_LIMIT: usize = 67_108_864;
