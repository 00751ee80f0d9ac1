//! Which last cuts of a step cut nothing, as lines tell.

ghost use Rattle.std.specs.Prelude.{◌≡◌, true};
ghost use Rattle.qm_space.specs.Plane.{Plane};
ghost use Rattle.qm_convex.specs.Sides.{IsWhollyInFront};
ghost use Rattle.qm_separators.specs.Separator.{IsSeparator, IsSeparatorFrom};
ghost use Rattle.qm_narrow.specs.inner.Beam.{AllSee};

use crate::aims::{end_beyond, middle_of, near_corner};
use crate::beam::Beam;
use crate::traced::Traced;
use qm_geom::Cuboid;

/// Whether lines tell that each separator of a target and the pass, where there is one, has all of a source in front. Where
/// they do not, it may be so all the same.
pub(crate) fn is_seen_whole(source: &Traced, pass: &Option<Traced>, target: &Traced) -> bool
    ensures { result ≡ true → (h : Plane) → IsSeparatorFrom pass.now target.now h → IsWhollyInFront source.now h }
{
    match pass {
        None => true,
        Some(pass) => all_see(source, pass, target),
    }
}

/// Whether from each corner of a source some line goes through a pass and then through a target.
fn all_see(source: &Traced, pass: &Traced, target: &Traced) -> bool
    ensures { result ≡ true → (h : Plane) → IsSeparator target.now pass.now h → IsWhollyInFront source.now h }
{
    let _passes = pass.len();
    let _targets = target.len();
    for i in 0..source.len() {
        if !sees(&source.spot(i).cuboid(), pass, target) {
            return false;
        }
    }
    true
}

/// Whether by some aim lines from all points of a cuboid do: by the middle of the target or of the pass, or near a corner of one
/// of them.
fn sees(from: &Cuboid, pass: &Traced, target: &Traced) -> bool
    ensures { result ≡ true → AllSee from.now pass.now target.now }
{
    if sees_by(from, &middle_of(target), pass, target) {
        return true;
    }
    if sees_by(from, &middle_of(pass), pass, target) {
        return true;
    }
    if sees_near_corners(from, target, pass, target) {
        return true;
    }
    sees_near_corners(from, pass, pass, target)
}

/// Whether they do by the point near some corner of a winding.
fn sees_near_corners(from: &Cuboid, aimed: &Traced, pass: &Traced, target: &Traced) -> bool
    ensures { result ≡ true → AllSee from.now pass.now target.now }
{
    for i in 0..aimed.len() {
        if sees_by(from, &near_corner(aimed, i), pass, target) {
            return true;
        }
    }
    false
}

/// Whether they do by an aim.
fn sees_by(from: &Cuboid, aim: &[i32; 3], pass: &Traced, target: &Traced) -> bool
    ensures { result ≡ true → AllSee from.now pass.now target.now }
{
    let end = end_beyond(from, aim);
    let beam = Beam::ending_at(from, end);
    let near = pass.winding();
    let far = target.winding();
    beam.goes_through(near, far)
}
