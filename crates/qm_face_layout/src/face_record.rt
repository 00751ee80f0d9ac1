use qm_lists::Items;

/// A piece of a brush's face: the leaf that it faces, the brush, the place of the face among the brush's faces, and the corners
/// around the piece. Each corner is three numbers of planes: the piece's own plane, that of the edge towards the corner before,
/// and that of the edge towards the next corner.
#[derive(Drop)]
pub struct FaceRecord {
    pub leaf: u64,
    pub brush: u64,
    pub face: u32,
    pub corners: Items<[i64; 3]>,
}
