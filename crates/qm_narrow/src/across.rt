//! Separators along one normal, and through three whole points.

ghost use Rattle.std.specs.Prelude.{◌≡◌, false, ◌↔◌, IsTrue, [], ◌∷◌, OnOk, Contains};
ghost use Rattle.qm_space.specs.Point.{whole_point, AreCoordinates};
ghost use Rattle.qm_space.specs.Vector.{normal_of};
ghost use Rattle.qm_space.specs.Plane.{Plane};
ghost use Rattle.qm_space.specs.LeastDistance.{IsLeastDistance};
ghost use Rattle.qm_convex.specs.Winding.{corners};
ghost use Rattle.qm_separators.specs.Across.{HasLowestNormal};
ghost use Rattle.qm_separators.specs.Gains.{Gains};
ghost use Rattle.qm_separators.specs.inner.Found.{PartsAlong, AreCandidate, SeparatesBy};
ghost use Rattle.qm_narrow.specs.inner.FoundPlanes.{AreAtLeastDistance, HasNormalAmong};
ghost use Rattle.qm_narrow.specs.inner.WholeCandidates.{IsToldBy};

use crate::lowest::lowest;
use crate::normal::normal_through;
use crate::outlook::Outlook;
use crate::pair::Pair;
use crate::sides::parts;
use crate::traced::Traced;
use qm_geom::Plane;
use std::alloc::AllocError;

/// Gains the separators with the normal of three whole points.
pub(crate) fn gain_through(
    planes: &mut Vec<Plane>,
    pair: &Pair,
    look: &Outlook,
    at: [i32; 3],
    from: [i32; 3],
    to: [i32; 3],
) -> Result<(), AllocError>
    requires told { IsToldBy pair.now.source.now pair.now.pass.now look.now (whole_point at) (whole_point from) (whole_point to) }
    requires at_in_cube { AreCoordinates at }
    requires from_in_cube { AreCoordinates from }
    requires to_in_cube { AreCoordinates to }
    requires found { AreAtLeastDistance pair.now.source.now planes.now.items }
    requires candidate { AreCandidate pair.now.source.now pair.now.pass.now (whole_point at) (whole_point from) (whole_point to) }
    ensures { OnOk result (Gains (SeparatesBy pair.now.source.now pair.now.pass.now (whole_point at) (whole_point from) (whole_point to)) planes.old.items planes.new.items) }
{
    let normal = normal_through(at, from, to);
    let outlook = look.without(planes.as_slice(), &normal);
    if outlook.is_none() {
        return Ok(());
    }
    let told = outlook.past(
        &pair.source.fine_reach(&normal),
        &pair.pass.fine_reach(&normal),
    );
    if told.is_none() {
        return Ok(());
    }
    match lowest(&normal) {
        None => Ok(()),
        Some(plane) => {
            let turned = plane.flipped();
            gain_where(planes, pair, &plane, told.ahead)?;
            gain_where(planes, pair, &turned, told.back)?;
            Ok(())
        }
    }
}

/// Gains the plane with this plane's normal at the least distance, if it parts both windings; where the flag is not set, it
/// does not, or is listed.
fn gain_where(
    planes: &mut Vec<Plane>,
    pair: &Pair,
    along: &Plane,
    may: bool,
) -> Result<(), AllocError>
    requires lowest { HasLowestNormal along.now }
    requires found { AreAtLeastDistance pair.now.source.now planes.now.items }
    requires not { may ≡ false → (h : Plane) → PartsAlong pair.now.source.now pair.now.pass.now along.now h → Contains planes.now.items h }
    ensures { OnOk result (Gains (PartsAlong pair.now.source.now pair.now.pass.now along.now) planes.old.items planes.new.items) }
{
    if may {
        gain_along(planes, pair.source, pair.pass, along)?;
    }
    Ok(())
}

/// Gains the plane with this plane's normal at the least distance, if it parts both windings. What has this normal and was
/// found before is that plane.
fn gain_along(
    planes: &mut Vec<Plane>,
    source: &Traced,
    pass: &Traced,
    along: &Plane,
) -> Result<(), AllocError>
    requires lowest { HasLowestNormal along.now }
    requires found { AreAtLeastDistance source.now planes.now.items }
    ensures { OnOk result (Gains (PartsAlong source.now pass.now along.now) planes.old.items planes.new.items) }
{
    if has_normal(planes.as_slice(), along) {
        return Ok(());
    }
    let plane = at_least_distance(source, along);
    if parts(source, pass, &plane) {
        planes.push(plane)?;
    }
    Ok(())
}

/// The plane with this plane's normal at the least distance at which no corner of a winding is in front.
fn at_least_distance(source: &Traced, along: &Plane) -> Plane
    requires { HasLowestNormal along.now }
    ensures normal { normal_of result ≡ normal_of along.now }
    ensures least { IsLeastDistance (along.now.nx ∷ along.now.ny ∷ along.now.nz ∷ []) (corners source.now) result.d }
{
    let _corners = source.len();
    Plane {
        nx: along.nx,
        ny: along.ny,
        nz: along.nz,
        d: source.least_distance(along),
    }
}

/// Whether a plane with this plane's normal is listed.
fn has_normal(planes: &[Plane], along: &Plane) -> bool
    ensures { IsTrue result ↔ HasNormalAmong planes.now along.now }
{
    for one in planes {
        if is_along(one, along) {
            return true;
        }
    }
    false
}

/// Whether two planes have one normal.
fn is_along(first: &Plane, second: &Plane) -> bool
    ensures { IsTrue result ↔ (normal_of first.now ≡ normal_of second.now) }
{
    first.nx == second.nx && first.ny == second.ny && first.nz == second.nz
}
