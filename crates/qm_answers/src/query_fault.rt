/// Why a query is refused.
#[derive(Clone, Copy)]
pub enum QueryFault {
    /// The point, or an end of the segment, is not strictly inside the cube of the file's bound.
    OutsideCube,
    /// There are not that many numbered leaves.
    NoSuchLeaf,
    /// The file has no rows.
    NoRows,
    /// The file has no section of the kind that is asked.
    NoPart,
    /// The reader of its kind refuses the section that is asked.
    BadPart,
    /// The section of brush models has none of the entity that is asked.
    NoSuchModel,
    /// There are not that many faces in their section.
    NoSuchFace,
    /// The plane of a node is too far from the cube for traces.
    TooWide,
}
