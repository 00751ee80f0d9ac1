use crate::face::Face;
use crate::text::Text;
use qm_lists::{Items, Parts};

/// A convex solid: what lies behind all its faces.
#[derive(Drop)]
pub struct Brush {
    pub faces: Items<Face>,
}

/// A key of an entity with its value.
#[derive(Drop)]
pub struct Pair {
    pub key: Text,
    pub value: Text,
}

/// A thing of the map, described by pairs, with the brushes that belong to it.
#[derive(Drop)]
pub struct Entity {
    pub pairs: Parts<Pair>,
    pub brushes: Parts<Brush>,
}

/// A whole map. Its first entity is the world.
#[derive(Drop)]
pub struct MapFile {
    pub entities: Items<Entity>,
}
