//! Places beside a place, of so many in a circle.

ghost use Rattle.std.specs.Prelude.{◌≡◌, ◌<◌};
ghost use Rattle.qm_convex.specs.Winding.{next_place};

/// The place after a place.
pub(crate) fn next_place(count: usize, i: usize) -> usize
    requires { i < count }
    ensures value { result ≡ next_place count i }
    ensures in_range { result < count }
{
    if i + 1 == count { 0 } else { i + 1 }
}

/// The place before it.
pub(crate) fn place_before(count: usize, i: usize) -> usize
    requires { i < count }
    ensures { result < count }
{
    if i == 0 { count - 1 } else { i - 1 }
}
