//! Separators as they are defined: for each edge of the one and each corner of the other, each whole point around it and
//! both signs, by fractions.

use qm_geom::{Corner, common_divisor};
use qm_wind::Winding;
use std::alloc::{AllocError, Global};

/// The three components of a normal and a distance.
pub(crate) type Numbers = [i128; 4];

/// The whole points near a corner.
#[derive(Clone, Copy)]
struct Whole {
    nearest: [i32; 3],
    below: [i32; 3],
    above: [i32; 3],
}

#[derive(Drop)]
struct Traced {
    corners: Vec<Corner>,
    wholes: Vec<Whole>,
}

fn trace_of(alloc: Global, winding: &Winding) -> Result<Traced, AllocError> {
    let mut corners = Vec::new(alloc);
    let mut wholes = Vec::new(alloc);
    for i in 0..winding.len() {
        let corner = winding.corner(i);
        let (below, above) = corner.around();
        wholes.push(Whole {
            nearest: corner.rounded(),
            below,
            above,
        })?;
        corners.push(corner)?;
    }
    Ok(Traced { corners, wholes })
}

/// The value of a normal at a corner, and the denominator of both.
fn along(normal: &Numbers, corner: &Corner) -> (i128, i128) {
    let (x, w) = corner.fraction(0);
    let (y, _) = corner.fraction(1);
    let (z, _) = corner.fraction(2);
    let total = normal[0]
        .wrapping_mul(x)
        .wrapping_add(normal[1].wrapping_mul(y))
        .wrapping_add(normal[2].wrapping_mul(z));
    (total, w)
}

/// The value of a plane at a corner.
fn value(plane: &Numbers, corner: &Corner) -> i128 {
    let (total, w) = along(plane, corner);
    total.wrapping_sub(plane[3].wrapping_mul(w))
}

/// A number divided by a positive one, rounded up.
fn rounded_up(over: i128, under: i128) -> i128 {
    if under <= 0 {
        return 0;
    }
    over.wrapping_neg().div_euclid(under).wrapping_neg()
}

/// The greatest of what the corners have along the normal, rounded up.
fn least_distance(normal: &Numbers, corners: &[Corner]) -> i128 {
    let mut least = i128::MIN;
    for corner in corners {
        let (total, w) = along(normal, corner);
        least = least.max(rounded_up(total, w));
    }
    least
}

/// Whether some corner is behind a plane.
fn has_behind(corners: &[Corner], plane: &Numbers) -> bool {
    let mut behind = false;
    for corner in corners {
        behind = behind || value(plane, corner) < 0;
    }
    behind
}

/// Whether some corner is in front of a plane.
fn has_in_front(corners: &[Corner], plane: &Numbers) -> bool {
    let mut in_front = false;
    for corner in corners {
        in_front = in_front || value(plane, corner) > 0;
    }
    in_front
}

/// Whether no corner of the pass is behind the plane, and some corner of one of the two is not on it: one of the pass in front of it,
/// or one of the source behind it.
fn parts(source: &[Corner], pass: &[Corner], plane: &Numbers) -> bool {
    !has_behind(pass, plane) && (has_in_front(pass, plane) || has_behind(source, plane))
}

fn step(from: [i32; 3], to: [i32; 3]) -> [i64; 3] {
    [
        i64::from(to[0]).wrapping_sub(i64::from(from[0])),
        i64::from(to[1]).wrapping_sub(i64::from(from[1])),
        i64::from(to[2]).wrapping_sub(i64::from(from[2])),
    ]
}

fn crossed(a: i64, b: i64, c: i64, d: i64) -> i64 {
    a.wrapping_mul(b).wrapping_sub(c.wrapping_mul(d))
}

/// A component in lowest terms, to one side or the other.
fn lowest(component: i64, factor: u64, sign: i64) -> i128 {
    let factor = factor as i128;
    if factor == 0 {
        return 0;
    }
    i128::from(component.wrapping_mul(sign)).wrapping_div(factor)
}

/// Whether a component of a normal in lowest terms is one that a separator may have.
fn is_small(component: i128) -> bool {
    -67_108_864 <= component && component <= 67_108_864
}

/// The normal of three points in lowest terms; zero where they lie on one line, or where a component is too large.
fn normal(at: [i32; 3], from: [i32; 3], to: [i32; 3], sign: i64) -> Numbers {
    let a = step(from, at);
    let b = step(from, to);
    let x = crossed(a[1], b[2], a[2], b[1]);
    let y = crossed(a[2], b[0], a[0], b[2]);
    let z = crossed(a[0], b[1], a[1], b[0]);
    let of_two = common_divisor(x.unsigned_abs(), y.unsigned_abs());
    let factor = common_divisor(of_two, z.unsigned_abs());
    let normal = [
        lowest(x, factor, sign),
        lowest(y, factor, sign),
        lowest(z, factor, sign),
        0,
    ];
    if is_small(normal[0]) && is_small(normal[1]) && is_small(normal[2]) {
        normal
    } else {
        [0, 0, 0, 0]
    }
}

/// One of the eight whole points around a corner.
fn mixed(corner: &Whole, mix: u32) -> [i32; 3] {
    [
        if mix % 2 == 0 {
            corner.below[0]
        } else {
            corner.above[0]
        },
        if mix / 2 % 2 == 0 {
            corner.below[1]
        } else {
            corner.above[1]
        },
        if mix / 4 % 2 == 0 {
            corner.below[2]
        } else {
            corner.above[2]
        },
    ]
}

/// An edge of a winding: the whole points nearest to its two ends.
#[derive(Clone, Copy)]
struct Edge {
    from: [i32; 3],
    to: [i32; 3],
}

/// The source and the pass that separators are to part.
#[derive(Drop)]
struct TracedPair {
    source: Traced,
    pass: Traced,
}

/// Adds the separators through an edge and a corner: through each whole point around the corner, with both signs.
fn add_of_corner(
    found: &mut Vec<Numbers>,
    pair: &TracedPair,
    edge: &Edge,
    corner: &Whole,
) -> Result<(), AllocError> {
    let source = pair.source.corners.as_slice();
    let pass = pair.pass.corners.as_slice();
    for mix in 0..16_u32 {
        let sign = if mix < 8 { 1 } else { -1 };
        let mut plane = normal(mixed(corner, mix), edge.from, edge.to, sign);
        plane[3] = least_distance(&plane, source);
        if plane[..3] != [0, 0, 0] && parts(source, pass, &plane) && !found.contains(&plane) {
            found.push(plane)?;
        }
    }
    Ok(())
}

/// Adds the separators through an edge and the corners of a winding.
fn add_of_edge(
    found: &mut Vec<Numbers>,
    pair: &TracedPair,
    edge: &Edge,
    others: &Traced,
) -> Result<(), AllocError> {
    for corner in others.wholes.as_slice() {
        add_of_corner(found, pair, edge, corner)?;
    }
    Ok(())
}

/// Adds the separators through the edges of the one and the corners of the other.
fn add(
    found: &mut Vec<Numbers>,
    pair: &TracedPair,
    edges: &Traced,
    others: &Traced,
) -> Result<(), AllocError> {
    let mut from = match edges.wholes.last() {
        None => return Ok(()),
        Some(last) => last.nearest,
    };
    for whole in edges.wholes.as_slice() {
        let to = whole.nearest;
        add_of_edge(found, pair, &Edge { from, to }, others)?;
        from = to;
    }
    Ok(())
}

/// All separators.
pub(crate) fn separators(
    alloc: Global,
    source: &Winding,
    pass: &Winding,
) -> Result<Vec<Numbers>, AllocError> {
    let pair = TracedPair {
        source: trace_of(alloc, source)?,
        pass: trace_of(alloc, pass)?,
    };
    let mut found = Vec::new(alloc);
    add(&mut found, &pair, &pair.source, &pair.pass)?;
    add(&mut found, &pair, &pair.pass, &pair.source)?;
    Ok(found)
}
