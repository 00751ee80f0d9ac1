//! Whether four numbers are those of a plane of a tree file.

ghost use Rattle.std.specs.Prelude.{◌≡◌, ◌&&◌, false, nat_le, unsigned_abs};
ghost use Rattle.qm_space.specs.Bounds.{normal_bound, distance_bound};
ghost use Rattle.qm_space.specs.Plane.{plane_of};
ghost use Rattle.qm_space.specs.Reduced.{sign_decides};
ghost use Rattle.qm_space.specs.ThreePoints.{common_factor};
ghost use Rattle.qm_formats.specs.FileParts.{is_plane};

use qm_geom::common_divisor;

/// The most of a component of a normal, and of a distance.
const NORMAL_BOUND: u32 = 1 << 26;

const DISTANCE_BOUND: u64 = 1 << 44;

/// Whether four numbers are those of a plane in lowest terms that leads with a positive component and is not too large.
#[tactic(auto, unfolding(qm_formats::specs::FileParts::is_plane))]
pub(crate) fn is_plane(nx: i32, ny: i32, nz: i32, d: i64) -> bool
    ensures { result ≡ is_plane (plane_of nx ny nz d) }
{
    leads_positive(nx, ny, nz) && common_factor(nx, ny, nz, d) == 1 && are_small(nx, ny, nz, d)
}

/// Whether four numbers are within the bounds of a plane's.
fn are_small(nx: i32, ny: i32, nz: i32, d: i64) -> bool
    ensures { result ≡ (nat_le (unsigned_abs nx) normal_bound && (nat_le (unsigned_abs ny) normal_bound && (nat_le (unsigned_abs nz) normal_bound && nat_le (unsigned_abs d) distance_bound))) }
{
    nx.unsigned_abs() <= NORMAL_BOUND
        && ny.unsigned_abs() <= NORMAL_BOUND
        && nz.unsigned_abs() <= NORMAL_BOUND
        && d.unsigned_abs() <= DISTANCE_BOUND
}

/// Whether the first of three numbers that is not 0 is positive.
fn leads_positive(nx: i32, ny: i32, nz: i32) -> bool
    ensures { result ≡ sign_decides nx (sign_decides ny (sign_decides nz false)) }
{
    if nx != 0 {
        nx > 0
    } else if ny != 0 {
        ny > 0
    } else {
        nz > 0
    }
}

/// The greatest number that divides all four.
#[tactic(auto, unfolding(qm_space::specs::ThreePoints::common_factor, qm_space::specs::ThreePoints::factor_of, qm_numbers::proofs::Divisors::divisor_of_four))]
fn common_factor(nx: i32, ny: i32, nz: i32, d: i64) -> u64
    ensures { result ≡ common_factor (plane_of nx ny nz d) }
{
    let of_two = common_divisor(u64::from(nx.unsigned_abs()), u64::from(ny.unsigned_abs()));
    let of_three = common_divisor(of_two, u64::from(nz.unsigned_abs()));
    common_divisor(of_three, d.unsigned_abs())
}
