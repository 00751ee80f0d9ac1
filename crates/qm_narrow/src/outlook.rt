//! Looks at a normal before it is brought to lowest terms.

ghost use Rattle.std.specs.Prelude.{◌≡◌, ◌⊎◌, ◌<ℤ◌, Bool, true, false, if◌then◌else◌};
ghost use Rattle.qm_space.specs.Bounds.{whole_normal_bound};
ghost use Rattle.qm_geom.specs.Vectors.{HasSmallComponents};
ghost use Rattle.qm_narrow.specs.inner.FoundPlanes.{HasAlongAmong, HasAgainstAmong};

use crate::multiples::{has_against, has_along};
use crate::reach::Reach;
use qm_geom::{Plane, Vector};

/// Whether planes with a normal, or with its opposite, may part two windings.
#[derive(Clone, Copy)]
pub(crate) struct Outlook {
    pub(crate) ahead: bool,
    pub(crate) back: bool,
}

impl Outlook {
    /// Past some corners of the one winding and of the other, where these are their reaches.
    pub(crate) fn past(&self, one: &Reach, other: &Reach) -> Outlook
        ensures ahead { result.ahead ≡ false → (self.now.ahead ≡ false) ⊎ (other.now.high <ℤ one.now.low) }
        ensures back { result.back ≡ false → (self.now.back ≡ false) ⊎ (one.now.high <ℤ other.now.low) }
    {
        Outlook {
            ahead: self.ahead && one.low <= other.high,
            back: self.back && other.low <= one.high,
        }
    }

    /// With both sides exchanged where the flag is set.
    pub(crate) fn exchanged(&self, flag: bool) -> Outlook
        ensures ahead { result.ahead ≡ (if flag then self.now.back else self.now.ahead) }
        ensures back { result.back ≡ (if flag then self.now.ahead else self.now.back) }
    {
        if flag {
            Outlook {
                ahead: self.back,
                back: self.ahead,
            }
        } else {
            *self
        }
    }

    /// Without the sides for which a plane with such a normal is listed.
    pub(crate) fn without(&self, planes: &[Plane], normal: &Vector) -> Outlook
        requires { HasSmallComponents normal.now whole_normal_bound }
        ensures ahead { result.ahead ≡ false → (self.now.ahead ≡ false) ⊎ HasAlongAmong planes.now normal.now }
        ensures back { result.back ≡ false → (self.now.back ≡ false) ⊎ HasAgainstAmong planes.now normal.now }
    {
        Outlook {
            ahead: self.ahead && !has_along(planes, normal),
            back: self.back && !has_against(planes, normal),
        }
    }

    /// Whether neither may.
    pub(crate) fn is_none(&self) -> bool
        ensures ahead { result ≡ true → self.now.ahead ≡ false }
        ensures back { result ≡ true → self.now.back ≡ false }
    {
        !self.ahead && !self.back
    }
}
