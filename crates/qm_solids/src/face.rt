/// A face: the number of its plane in a book, and whether the front of that plane is outside.
#[derive(Clone, Copy)]
pub struct FaceRef {
    pub plane: u32,
    pub out_is_front: bool,
}
