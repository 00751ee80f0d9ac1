use crate::text::Text;
use qm_lists::Items;

/// How a texture lies on a face, as its words stand in the text: not checked, kept to be printed again.
#[derive(Drop)]
pub enum Mapping {
    /// Five words: two offsets, a rotation and two scales.
    Standard(Items<Text>),
    /// Eleven words: two axes of four numbers, without their brackets, then a rotation and two scales.
    Valve(Items<Text>),
}

/// A face of a brush: three points on its plane, in thousandths of a map unit, and its texture.
///
/// The outward normal is `(points[0] - points[1]) x (points[2] - points[1])`.
#[derive(Drop)]
pub struct Face {
    pub points: [[i32; 3]; 3],
    pub texture: Text,
    pub mapping: Mapping,
}
