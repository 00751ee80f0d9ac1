ghost use Rattle.std.specs.Prelude.{◌≡◌, ◌<◌, pos, length};
ghost use Rattle.std.specs.Ordering.{int_cmp};
ghost use Rattle.qm_space.specs.Plane.{Plane, value};
ghost use Rattle.qm_space.specs.CommonLine.{common_line};
ghost use Rattle.qm_convex.specs.Winding.{corner_at, IsConvex};
ghost use Rattle.qm_wind.specs.inner.Surveyed.{noted, begun, surveyed, IsSurvey};

use crate::circle::next_place;
use qm_geom::{Line, Plane};
use std::cmp::Ordering;

/// The corners of a winding on one side of a plane, which stand in one row of the circle.
#[derive(Clone, Copy)]
pub(crate) struct Run {
    /// Whether there is one.
    pub(crate) some: bool,
    /// The first corner on that side after one that isn't, if there is one.
    pub(crate) start: usize,
    /// The first corner that isn't on that side after one that is, if there is one.
    pub(crate) end: usize,
}

impl Run {
    /// With the corner at a place: whether the one before it was on that side, and whether it is.
    fn noting(self, was: bool, is: bool, place: usize) -> Run
        ensures { result ≡ noted self was is place }
    {
        Run {
            some: self.some || is,
            start: if is && !was { place } else { self.start },
            end: if was && !is { place } else { self.end },
        }
    }
}

/// The corners of a winding on both sides of a plane.
#[derive(Clone, Copy)]
pub(crate) struct Survey {
    pub(crate) front: Run,
    pub(crate) back: Run,
}

impl Survey {
    /// Of the first corner alone.
    fn beginning(first: Ordering) -> Survey
        ensures { result ≡ begun first }
    {
        Survey {
            front: Run {
                some: first.is_gt(),
                start: 0,
                end: 0,
            },
            back: Run {
                some: first.is_lt(),
                start: 0,
                end: 0,
            },
        }
    }

    /// With the corner at a place, after the one before it.
    fn noting(self, before: Ordering, here: Ordering, place: usize) -> Survey
        ensures { result ≡ surveyed self before here place }
    {
        Survey {
            front: self.front.noting(before.is_gt(), here.is_gt(), place),
            back: self.back.noting(before.is_lt(), here.is_lt(), place),
        }
    }

    /// Of all corners of a winding, each measured once.
    pub(crate) fn of(on: &Plane, edges: &[Plane], plane: &Plane) -> Survey
        requires { IsConvex (record { plane = on.now; edges = edges.now }) }
        ensures { IsSurvey (record { plane = on.now; edges = edges.now }) plane.now result }
    {
        let line = Line::of(plane, on);
        let first = side_of_corner(&line, edges, 0);
        let mut before = first;
        let mut survey = Survey::beginning(first);
        for i in 1..edges.len() {
            let here = side_of_corner(&line, edges, i);
            survey = survey.noting(before, here, i);
            before = here;
        }
        survey.noting(before, first, 0)
    }
}

/// The side of a plane on which the corner at a place lies, by the line in which the plane meets that of
/// the winding.
pub(crate) fn side_of_corner(line: &Line, edges: &[Plane], i: usize) -> Ordering
    requires { i < length edges.now }
    ensures { (g h : Plane) → line.now ≡ common_line g h →
        result ≡ int_cmp (value g (corner_at (record { plane = h; edges = edges.now }) i)) (pos 0) }
{
    let next = next_place(edges.len(), i);
    line.side_of_meeting(&edges[i], &edges[next])
}
