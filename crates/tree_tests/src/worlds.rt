//! Worlds as MAP texts, of brushes made of numbers that look random.

use std::alloc::{AllocError, Global};
use test_numbers::Random;
use test_texts::{points_across, put_fine_face};

/// The names of textures, one for each kind of contents, and clip.
const TEXTURES: [&str; 6] = ["stone", "*water", "*slime", "*lava", "sky", "clip"];

/// On which coordinates the faces of a world lie.
#[derive(Clone, Copy)]
pub enum Grid {
    /// Multiples of 16.
    Whole,
    /// Multiples of 16 and of 16.016, and some that lie a thousandth beside them.
    Thousandths,
}

/// Steps between coordinates, and how far the coordinates lie beside their multiples, in thousandths.
static FINE_STEPS: [(i32, i32); 4] = [(16_000, 0), (16_016, 0), (16_000, 1), (16_016, -1)];

impl Grid {
    /// A step, and how far beside its multiples.
    fn step(self, random: &mut Random) -> (i32, i32) {
        match self {
            Grid::Whole => (16_000, 0),
            Grid::Thousandths => FINE_STEPS[random.below(4) as usize],
        }
    }

    /// One of nine multiples of a step, so that planes come again, in thousandths.
    fn coordinate(self, random: &mut Random) -> i32 {
        let (step, beside) = self.step(random);
        let times = random.below(9) as i32 - 4;
        step.saturating_mul(times).saturating_add(beside)
    }

    /// A length along an axis, on either side of its origin, in thousandths. All those of a grid have one step, so that no
    /// plane through them is too fine.
    fn intercept(self, random: &mut Random) -> i32 {
        let step = match self {
            Grid::Whole => 16_000,
            Grid::Thousandths => 16_016,
        };
        let length = step * (random.below(4) as i32 + 1);
        if random.below(2) == 0 {
            length
        } else {
            -length
        }
    }
}

/// A world of up to six brushes: boxes, some without all their sides, some flat, some cut by a slanted plane.
pub fn random_world(alloc: Global, random: &mut Random, grid: Grid) -> Result<String, AllocError> {
    let mut text = String::new(alloc);
    text.push_str("{\n")?;
    for _ in 0..=random.below(6) {
        put_random_brush(&mut text, random, grid)?;
    }
    text.push_str("}\n")?;
    Ok(text)
}

fn put_random_brush(text: &mut String, random: &mut Random, grid: Grid) -> Result<(), AllocError> {
    let texture = TEXTURES[random.below(6) as usize];
    let is_box = random.below(2) == 0;
    text.push_str("{\n")?;
    for axis in 0..3 {
        let least = grid.coordinate(random);
        let greatest = least.saturating_add(16_000 * random.below(4) as i32);
        if is_box || random.below(3) > 0 {
            put_fine_face(text, texture, points_across(2 * axis, least))?;
        }
        if is_box || random.below(3) > 0 {
            put_fine_face(text, texture, points_across(2 * axis + 1, greatest))?;
        }
    }
    if !is_box || random.below(3) == 0 {
        put_slanted_face(text, texture, random, grid)?;
    }
    text.push_str("}\n")
}

/// A face across the three axes.
fn put_slanted_face(
    text: &mut String,
    texture: &str,
    random: &mut Random,
    grid: Grid,
) -> Result<(), AllocError> {
    let first = [grid.intercept(random), 0, 0];
    let second = [0, grid.intercept(random), 0];
    let third = [0, 0, grid.intercept(random)];
    if random.below(2) == 0 {
        put_fine_face(text, texture, [first, second, third])
    } else {
        put_fine_face(text, texture, [first, third, second])
    }
}
