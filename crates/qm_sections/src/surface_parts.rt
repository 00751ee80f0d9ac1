use qm_brush::BrushList;
use qm_geom::PlaneBook;
use qm_portal::TouchList;

/// What the surface of a map is cut from: the brushes of the map, the book that has their planes, and the contacts of a tree.
#[derive(Drop)]
pub struct SurfaceParts {
    pub list: BrushList,
    pub book: PlaneBook,
    pub contacts: TouchList,
}
