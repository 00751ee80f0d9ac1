//! Contacts of the leaves of built trees, beside those that the cells of a grid show.

ghost use Rattle.std.specs.Prelude.{◌<◌};

use qm_geom::Point;
use qm_portal::{TouchList, touches};
use qm_tree::Tree;
use std::alloc::{AllocError, Global};
use std::test::Fail;
use test_numbers::Random;
use test_texts::put_box;
use test_worlds::tree_of;

/// A tree with its contacts.
#[derive(Drop)]
struct Touching {
    tree: Tree,
    contacts: TouchList,
}

impl Touching {
    fn of(alloc: Global, text: &str) -> Result<Touching, AllocError> {
        let tree = tree_of(alloc, text)?;
        let contacts = touches(alloc, &tree)?;
        Ok(Touching { tree, contacts })
    }

    /// The leaf of a cell of the grid: its middle is 8 past a multiple of 16.
    fn leaf_of(&self, cell: [u8; 3]) -> u64 {
        let [x, y, z] = cell;
        self.tree.leaf_at(&Point {
            x: middle(x),
            y: middle(y),
            z: middle(z),
            w: 1,
        })
    }

    /// Whether two leaves are neighbours of one another.
    fn touch(&self, a: u64, b: u64) -> bool {
        let leaves = self.contacts.leaves();
        a < leaves
            && b < leaves
            && self.contacts.neighbours(a).contains(&b)
            && self.contacts.neighbours(b).contains(&a)
    }

    fn touches_outside(&self, leaf: u64) -> bool {
        leaf < self.contacts.leaves() && self.contacts.outside(leaf)
    }

    /// Whether the touching pairs are these pairs of leaves, and there are as many.
    fn has_pairs(&self, pairs: &[(u64, u64)]) -> bool {
        let mut right = self.contacts.pairs() == pairs.len() as u64;
        for i in 0..self.contacts.pairs() {
            let pair = self.contacts.pair(i);
            right &= pairs.contains(&in_order(pair.front, pair.back));
        }
        right
    }

    /// How many neighbours all leaves have, and how many leaves touch the outside.
    fn counts(&self) -> (usize, usize) {
        let mut neighbours = 0usize;
        let mut outside = 0usize;
        for leaf in 0..self.contacts.leaves() {
            neighbours = neighbours.saturating_add(self.contacts.neighbours(leaf).len());
            if self.contacts.outside(leaf) {
                outside = outside.saturating_add(1);
            }
        }
        (neighbours, outside)
    }
}

/// How many cells the grid has along each axis. The first and the last reach to the walls of the cube.
const CELLS: u8 = 12;

fn middle(cell: u8) -> i64 {
    16 * i64::from(cell) - 88
}

/// Two leaves, the lesser number first.
fn in_order(a: u64, b: u64) -> (u64, u64) {
    if a < b { (a, b) } else { (b, a) }
}

/// What the cells of a grid show: each two leaves that have cells beside one another, and each leaf with a cell at a wall.
#[derive(Drop)]
struct Seen {
    pairs: Vec<(u64, u64)>,
    outside: Vec<u64>,
}

impl Seen {
    /// What all cells of the grid show.
    fn of(alloc: Global, found: &Touching) -> Result<Seen, AllocError> {
        let mut seen = Seen {
            pairs: Vec::new(alloc),
            outside: Vec::new(alloc),
        };
        for x in 0..CELLS {
            seen.add_layer(found, x)?;
        }
        Ok(seen)
    }

    /// Adds what the lines of a layer of cells show.
    fn add_layer(&mut self, found: &Touching, x: u8) -> Result<(), AllocError> {
        for y in 0..CELLS {
            self.add_line(found, x, y)?;
        }
        Ok(())
    }

    /// Adds what a line of cells shows, and what lies beside each of its cells.
    fn add_line(&mut self, found: &Touching, x: u8, y: u8) -> Result<(), AllocError> {
        for z in 0..CELLS {
            let leaf = found.leaf_of([x, y, z]);
            if [x, y, z].contains(&0) || [x, y, z].contains(&(CELLS - 1)) {
                self.add_outside(leaf)?;
            }
            self.add_pair(leaf, found.leaf_of([x.saturating_add(1), y, z]))?;
            self.add_pair(leaf, found.leaf_of([x, y.saturating_add(1), z]))?;
            self.add_pair(leaf, found.leaf_of([x, y, z.saturating_add(1)]))?;
        }
        Ok(())
    }

    fn add_outside(&mut self, leaf: u64) -> Result<(), AllocError> {
        if !self.outside.contains(&leaf) {
            self.outside.push(leaf)?;
        }
        Ok(())
    }

    fn add_pair(&mut self, a: u64, b: u64) -> Result<(), AllocError> {
        let pair = in_order(a, b);
        if a != b && !self.pairs.contains(&pair) {
            self.pairs.push(pair)?;
        }
        Ok(())
    }
}

/// A world of boxes, some of which hold air, so that there are rooms.
fn random_rooms(alloc: Global, random: &mut Random) -> Result<String, AllocError> {
    let mut text = String::new(alloc);
    text.push_str("{\n")?;
    for _ in 0..=random.below(5) {
        let least = [at(random, 5), at(random, 5), at(random, 5)];
        let [x, y, z] = least;
        let greatest = [
            x.saturating_add(at(random, 4).saturating_add(80)),
            y.saturating_add(at(random, 4).saturating_add(80)),
            z.saturating_add(at(random, 4).saturating_add(80)),
        ];
        put_box(&mut text, "stone", least, greatest)?;
    }
    text.push_str("}\n")?;
    Ok(text)
}

/// One of some multiples of 16, from -64 on.
fn at(random: &mut Random, count: u8) -> i32
    requires { 0 < count }
{
    16 * (random.below(u64::from(count)) as i32) - 64
}

/// Whether the contacts of a world are those that the grid shows.
fn agree(alloc: Global, text: &str) -> Result<bool, AllocError> {
    let found = Touching::of(alloc, text)?;
    let seen = Seen::of(alloc, &found)?;
    let (neighbours, outside) = found.counts();
    Ok(
        neighbours == seen.pairs.len().saturating_mul(2)
            && outside == seen.outside.len()
            && found.has_pairs(&seen.pairs)
            && seen.pairs.iter().all(|pair| found.touch(pair.0, pair.1))
            && seen.outside.iter().all(|leaf| found.touches_outside(*leaf)),
    )
}

/// In many random worlds of boxes, the contacts are those that the cells of a grid show.
#[test]
fn contacts_agree_with_grid(rt: HostRuntime) -> Result<(), Fail> {
    let mut random = Random::new(3);
    for _ in 0..40 {
        let text = random_rooms(rt.alloc(), &mut random)?;
        assert!(rt; agree(rt.alloc(), &text)?);
    }
    Ok(())
}
