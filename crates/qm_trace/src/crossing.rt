//! Where a segment crosses a plane, and on which side it goes on, by the plane's values at the two ends.

ghost use Rattle.std.specs.Prelude.{◌≡◌, ◌<◌, ◌^◌, ◌&&◌, pos, int_lt, unsigned_abs};
ghost use Rattle.qm_spans.specs.Partings.{is_earlier, are_opposed, crossing_at, crosses_between, is_behind_after};

use crate::parting::is_earlier;
use qm_spans::Parting;

/// Whether a place where the plane has this value is behind it.
pub(crate) fn is_behind(value: i128) -> bool
    ensures { result ≡ int_lt value (pos 0) }
{
    value < 0
}

/// Whether the ends lie strictly on different sides.
fn are_opposed(first: i128, second: i128) -> bool
    ensures { result ≡ are_opposed first second }
{
    (first < 0 && 0 < second) || (second < 0 && 0 < first)
}

/// Where the segment crosses the plane, if the ends lie on different sides.
pub(crate) fn crossing_at(first: i128, second: i128) -> Parting
    requires first { unsigned_abs first < 2 ^ 64 }
    requires second { unsigned_abs second < 2 ^ 64 }
    ensures { result ≡ crossing_at first second }
{
    Parting {
        before: first.unsigned_abs() as u64,
        behind: second.unsigned_abs() as u64,
    }
}

/// Whether the segment crosses the plane strictly between two partings.
#[tactic(auto, unfolding(qm_spans::specs::Partings::crosses_between))]
pub(crate) fn crosses_between(first: i128, second: i128, from: Parting, to: Parting) -> bool
    requires first { unsigned_abs first < 2 ^ 64 }
    requires second { unsigned_abs second < 2 ^ 64 }
    ensures { result ≡ crosses_between first second from to }
{
    are_opposed(first, second) && lies_between(crossing_at(first, second), from, to)
}

/// Whether a parting lies strictly between two others.
fn lies_between(at: Parting, from: Parting, to: Parting) -> bool
    ensures { result ≡ (is_earlier from at && is_earlier at to) }
{
    is_earlier(from, at) && is_earlier(at, to)
}

/// Whether the segment is behind the plane just after a parting. A segment that lies in the plane is in front.
#[tactic(auto, unfolding(qm_spans::specs::Partings::is_behind_after))]
pub(crate) fn is_behind_after(first: i128, second: i128, from: Parting) -> bool
    requires first { unsigned_abs first < 2 ^ 64 }
    requires second { unsigned_abs second < 2 ^ 64 }
    ensures { result ≡ is_behind_after first second from }
{
    if !are_opposed(first, second) {
        is_behind(first) || is_behind(second)
    } else if is_earlier(from, crossing_at(first, second)) {
        is_behind(first)
    } else {
        is_behind(second)
    }
}
