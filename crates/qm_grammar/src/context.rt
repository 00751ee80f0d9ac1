/// Where in a map a reader of tokens stands.
#[derive(Clone, Copy, PartialEq)]
pub enum Context {
    /// Between entities.
    Outside,
    /// Between the pairs and brushes of an entity.
    Entity,
    /// Behind a key.
    Value,
    /// Between the faces of a brush.
    Brush,
    /// Inside a face.
    Face,
}
