/// A place that divides a segment in the ratio `before` to `behind`. At the segment's start `before` is 0, at its end `behind`
/// is 0.
#[derive(Clone, Copy)]
pub struct Parting {
    pub before: u64,
    pub behind: u64,
}
