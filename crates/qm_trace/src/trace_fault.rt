/// Why a segment is not traced.
#[derive(Clone, Copy, Debug, PartialEq, Eq)]
pub enum TraceFault {
    /// An end does not lie strictly inside the cube.
    OutsideCube,
}
