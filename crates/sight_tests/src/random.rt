//! Separators of random windings, beside the slow program.

use crate::shapes::{cut, through};
use crate::slow::{Numbers, separators as slow_separators};
use qm_geom::Plane;
use qm_narrow::separators;
use qm_space::WORLD_EXTENT;
use qm_wind::{Side, Winding};
use std::alloc::{AllocError, Global};
use std::test::Fail;
use test_numbers::Random;

/// How far from the origin the places are near which planes are taken.
const FAR: u16 = (WORLD_EXTENT - 4096) as u16;

fn moved(point: [i32; 3], by: [i32; 3]) -> [i32; 3] {
    [
        point[0].wrapping_add(by[0]),
        point[1].wrapping_add(by[1]),
        point[2].wrapping_add(by[2]),
    ]
}

/// The plane through three random points near a random place: up to a reach of 4096 it is not too fine.
fn random_plane(random: &mut Random, reach: u16) -> Plane {
    let place = random.point(FAR);
    let [first, second, third] = random.points(reach);
    through([
        moved(first, place),
        moved(second, place),
        moved(third, place),
    ])
}

/// The part of a random plane inside the cube, cut by four others.
fn random_winding(
    alloc: Global,
    random: &mut Random,
    reach: u16,
) -> Result<Option<Winding>, AllocError> {
    let Some(mut winding) = Winding::on(alloc, &random_plane(random, reach))? else {
        return Ok(None);
    };
    for _ in 0..4 {
        let plane = random_plane(random, reach);
        winding = cut(winding, &plane, Side::Front)?;
    }
    Ok(Some(winding))
}

/// How many separators two windings have; `None` where the slow program does not find the same.
fn agree(alloc: Global, source: &Winding, pass: &Winding) -> Result<Option<usize>, AllocError> {
    let fast = separators(alloc, source, pass)?;
    let slow = slow_separators(alloc, source, pass)?;
    if fast.len() != slow.len() {
        return Ok(None);
    }
    for plane in fast.as_slice() {
        let numbers: Numbers = [
            i128::from(plane.nx),
            i128::from(plane.ny),
            i128::from(plane.nz),
            i128::from(plane.d),
        ];
        if !slow.contains(&numbers) {
            return Ok(None);
        }
    }
    Ok(Some(fast.len()))
}

/// Whether 12 pairs of windings agree, and have separators.
fn all_agree(alloc: Global, reach: u16) -> Result<bool, AllocError> {
    let mut random = Random::new(u64::from(reach));
    let mut planes = 0_usize;
    for _ in 0..12 {
        let (Some(source), Some(pass)) = (
            random_winding(alloc, &mut random, reach)?,
            random_winding(alloc, &mut random, reach)?,
        ) else {
            return Ok(false);
        };
        match agree(alloc, &source, &pass)? {
            None => return Ok(false),
            Some(count) => planes = planes.wrapping_add(count),
        }
    }
    Ok(planes > 0)
}

#[test]
fn separators_agree(rt: HostRuntime) -> Result<(), Fail> {
    let alloc = rt.alloc();
    let right = all_agree(alloc, 8)? && all_agree(alloc, 100)? && all_agree(alloc, 4096)?;
    assert!(rt; right);
    Ok(())
}
