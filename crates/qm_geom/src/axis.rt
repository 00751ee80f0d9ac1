ghost use Rattle.std.specs.Prelude.{◌≡◌, pos, int_div};
ghost use Rattle.qm_space.specs.Point.{thousandths_point, IsThousandths, AreThousandths};
ghost use Rattle.qm_space.specs.Plane.{plane_of};
ghost use Rattle.qm_space.specs.Reduced.{HasSmallNormal};
ghost use Rattle.qm_space.specs.ThreePoints.{reduced};
ghost use Rattle.qm_geom.specs.inner.Axes.{plane_across, coordinate_factor};

use crate::factor::common_divisor;
use crate::plane::Plane;
use crate::whole::whole_coordinate;

/// How many thousandths a map unit has.
const THOUSANDTHS: u64 = 1000;

/// An axis of the world.
#[derive(Clone, Copy)]
pub(crate) enum Axis {
    X,
    Y,
    Z,
}

/// A coordinate in map units, as a fraction in lowest terms.
#[derive(Clone, Copy)]
struct Fraction {
    over: i64,
    under: i32,
}

impl Axis {
    /// The plane across the axis at a point in thousandths of a map unit, in lowest terms. Its front has the greater
    /// coordinates.
    pub(crate) fn plane_at(self, at: [i32; 3]) -> Plane
        requires { AreThousandths at }
        ensures value { result ≡ reduced (plane_across self (thousandths_point at)) }
        ensures small { HasSmallNormal result }
    {
        match self {
            Axis::X => across_x(at[0]),
            Axis::Y => across_y(at[1]),
            Axis::Z => across_z(at[2]),
        }
    }
}

/// The plane across the first axis.
fn across_x(coordinate: i32) -> Plane
    requires { IsThousandths coordinate }
    ensures { result ≡ reduced (plane_of (pos 1000) (pos 0) (pos 0) coordinate) }
{
    let place = Fraction::of(coordinate);
    Plane {
        nx: place.under,
        ny: 0,
        nz: 0,
        d: place.over,
    }
}

/// The plane across the second axis.
fn across_y(coordinate: i32) -> Plane
    requires { IsThousandths coordinate }
    ensures { result ≡ reduced (plane_of (pos 0) (pos 1000) (pos 0) coordinate) }
{
    let place = Fraction::of(coordinate);
    Plane {
        nx: 0,
        ny: place.under,
        nz: 0,
        d: place.over,
    }
}

/// The plane across the third axis.
fn across_z(coordinate: i32) -> Plane
    requires { IsThousandths coordinate }
    ensures { result ≡ reduced (plane_of (pos 0) (pos 0) (pos 1000) coordinate) }
{
    let place = Fraction::of(coordinate);
    Plane {
        nx: 0,
        ny: 0,
        nz: place.under,
        d: place.over,
    }
}

impl Fraction {
    /// A coordinate in thousandths. Most are whole.
    fn of(coordinate: i32) -> Fraction
        requires { IsThousandths coordinate }
        ensures over { result.over ≡ int_div coordinate (pos (coordinate_factor coordinate)) }
        ensures under { result.under ≡ int_div (pos 1000) (pos (coordinate_factor coordinate)) }
    {
        match whole_coordinate(coordinate) {
            Some(whole) => Fraction {
                over: i64::from(whole),
                under: 1,
            },
            None => Fraction::in_lowest_terms(coordinate),
        }
    }

    /// Any coordinate in thousandths.
    fn in_lowest_terms(coordinate: i32) -> Fraction
        requires { IsThousandths coordinate }
        ensures over { result.over ≡ int_div coordinate (pos (coordinate_factor coordinate)) }
        ensures under { result.under ≡ int_div (pos 1000) (pos (coordinate_factor coordinate)) }
    {
        let factor = common_divisor(u64::from(coordinate.unsigned_abs()), THOUSANDTHS);
        Fraction {
            over: i64::from(coordinate) / factor as i64,
            under: (THOUSANDTHS / factor) as i32,
        }
    }
}
