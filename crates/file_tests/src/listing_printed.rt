//! Listings of generated worlds, read again and held to the portals.

use qm_geom::Corner;
use qm_portal::World;
use qm_prt::{Coordinate, PrtFault, PrtPortal, print, read};
use qm_wind::Winding;
use std::alloc::{AllocError, Global};
use std::test::Fail;
use test_numbers::Random;
use test_texts::{points_across, put_face};
use test_worlds::world_of;

/// Whether a coordinate is that of a fraction, to the nearest millionth.
fn is_near(coordinate: &Coordinate, over: i128, under: i128) -> bool {
    let shown = i128::from(coordinate.millionths).saturating_mul(under);
    let exact = over.saturating_mul(1_000_000);
    let apart = shown.saturating_sub(exact).unsigned_abs().saturating_mul(2);
    let whole = under > 0 && over.unsigned_abs() % under.unsigned_abs() == 0;
    coordinate.whole == whole && apart <= under.unsigned_abs() && (!whole || apart == 0)
}

fn is_corner(listed: &[Coordinate; 3], corner: &Corner) -> bool {
    let [x, y, z] = listed;
    let (of_x, w) = corner.fraction(0);
    let (of_y, _) = corner.fraction(1);
    let (of_z, _) = corner.fraction(2);
    is_near(x, of_x, w) && is_near(y, of_y, w) && is_near(z, of_z, w)
}

/// The place of a winding's corner in a list, if it stands there.
fn place_of(listed: &[[Coordinate; 3]], corner: &Corner) -> Option<usize> {
    listed.iter().position(|one| is_corner(one, corner))
}

/// Whether the corners of a winding stand in a list, each before the one that the winding has before it.
fn goes_back(listed: &[[Coordinate; 3]], winding: &Winding) -> Option<bool> {
    let count = winding.len();
    let mut right = listed.len() == count;
    for i in 1..count {
        let place = place_of(listed, &winding.corner(i))?;
        let next = place_of(listed, &winding.corner(i - 1))?;
        let after = place.saturating_add(1);
        right &= next == (if after < count { after } else { 0 });
    }
    Some(right)
}

/// Whether no corner comes before the first one.
fn starts_with_least(listed: &[[Coordinate; 3]]) -> Option<bool> {
    let [x, y, z] = listed.first()?;
    Some(
        listed.iter().all(|[a, b, c]| {
            (x.millionths, y.millionths, z.millionths) <= (a.millionths, b.millionths, c.millionths)
        }),
    )
}

fn is_portal(portal: &PrtPortal, world: &World, p: u64) -> Option<bool> {
    if p >= world.portals() {
        return None;
    }
    let corners = portal.corners.as_slice();
    Some(
        portal.leaf0 == world.from(p)
            && portal.leaf1 == world.to(p)
            && starts_with_least(corners)?
            && goes_back(corners, &world.pane(p).winding)?,
    )
}

/// Whether the listing of a world says what the world does.
fn is_listed(alloc: Global, world: &World) -> Result<bool, AllocError> {
    let mut text = Vec::new(alloc);
    print(alloc, world, &mut text)?;
    let listing = match read(alloc, &text) {
        Ok(listing) => listing,
        Err(PrtFault::Memory) => return Err(AllocError),
        Err(_) => return Ok(false),
    };
    let portals = listing.portals.as_slice();
    Ok(
        listing.leaves == world.leaves()
            && portals.len() as u64 == world.portals() / 2
            && portals.iter().enumerate().all(|(j, portal)| is_portal(
                portal,
                world,
                (j as u64).saturating_mul(2),
            ) == Some(true)),
    )
}

/// Adds the six sides of a box between -64 and 64.
fn put_sides(text: &mut String) -> Result<(), AllocError> {
    for side in 0..6 {
        let at = if side % 2 == 0 { -64 } else { 64 };
        put_face(text, "stone", points_across(side, at))?;
    }
    Ok(())
}

/// Adds the planes through three points each.
fn put_cuts(text: &mut String, cuts: &[[[i32; 3]; 3]]) -> Result<(), AllocError> {
    for points in cuts {
        put_face(text, "stone", *points)?;
    }
    Ok(())
}

/// The text of a world of one box between -64 and 64, each of its sides cut by the plane through three points.
fn cut_box(alloc: Global, cuts: &[[[i32; 3]; 3]]) -> Result<String, AllocError> {
    let mut text = String::new(alloc);
    text.push_str("{\n{\n")?;
    put_sides(&mut text)?;
    put_cuts(&mut text, cuts)?;
    text.push_str("}\n}\n")?;
    Ok(text)
}

/// A coordinate near to -48.
fn near(random: &mut Random) -> i32 {
    random.below(24) as i32 - 48
}

/// A plane that cuts one corner off.
fn cut(random: &mut Random) -> [[i32; 3]; 3] {
    [
        [near(random), 64, 64],
        [64, 64, near(random)],
        [64, near(random), 64],
    ]
}

#[test]
fn listings_say_what_worlds_do(rt: HostRuntime) -> Result<(), Fail> {
    let mut random = Random::new(1);
    let mut right = true;
    for _ in 0..6 {
        let text = cut_box(rt.alloc(), &[cut(&mut random), cut(&mut random)])?;
        let world = world_of(rt.alloc(), text.as_str(), [0, 0, 200])?;
        right &= world.portals() > 24 && is_listed(rt.alloc(), &world)?;
    }
    assert!(rt; right);
    Ok(())
}
