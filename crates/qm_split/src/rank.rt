ghost use Rattle.std.specs.Prelude.{◌↔◌, IsTrue};
ghost use Rattle.qm_solids.specs.Least.{IsAxial};
ghost use Rattle.qm_split.specs.inner.Ranks.{IsBefore, IsFirstOf};

use qm_geom::Plane;

/// Where the plane of a number comes among candidates: planes across an axis before others, and then by number.
#[derive(Clone, Copy)]
pub(crate) struct Rank {
    pub(crate) axial: bool,
    pub(crate) number: u32,
}

impl Rank {
    /// Whether this one comes before another.
    pub(crate) fn is_before(&self, other: &Rank) -> bool
        ensures { IsTrue result ↔ IsBefore self.now other.now }
    {
        if self.axial == other.axial {
            self.number < other.number
        } else {
            self.axial
        }
    }
}

/// The one that comes first, of a rank and maybe another.
pub(crate) fn first_of(other: Option<Rank>, rank: Rank) -> Rank
    ensures { IsFirstOf other rank result }
{
    match other {
        Some(other) if other.is_before(&rank) => other,
        _ => rank,
    }
}

/// Whether two components of a plane's normal are 0.
pub(crate) fn is_axial(plane: &Plane) -> bool
    ensures { IsTrue result ↔ IsAxial plane.now }
{
    let across_x = plane.nx != 0;
    let across_y = plane.ny != 0;
    let across_z = plane.nz != 0;
    if across_x {
        !across_y && !across_z
    } else {
        !across_y || !across_z
    }
}
