/// What a section of a tree file is decoded to.
#[derive(Drop)]
pub enum DecodedSection<T> {
    /// The file has no section of its kind.
    Missing,
    /// Its bytes are those of no content of its kind.
    Bad,
    /// The content whose bytes it has.
    Known(T),
}
