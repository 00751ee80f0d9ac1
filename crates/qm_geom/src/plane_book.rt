ghost use Rattle.std.specs.Prelude.{◌≡◌, ℕ, ◌<◌, ◌≤◌, ◌+◌, ◌-◌, ◌^◌, ◌↔◌, [], IsTrue, Some, slice_get, length, MatchOption, IfOk, OnErr};
ghost use Rattle.qm_space.specs.Reduced.{leads_positive, IsReduced};
ghost use Rattle.qm_space.specs.Book.{AreBookPlanes};
ghost use Rattle.qm_space.specs.Entered.{EntersBook};

use crate::plane::Plane;
use std::alloc::{AllocError, Global};
use std::collections::BTreeMap;
use std::marker::Model;

/// The planes of a map, each once, under numbers that stay as planes are added.
#[derive(Drop)]
pub struct PlaneBook {
    planes: Vec<Plane>,
    numbers: BTreeMap<Plane, u32>,
}

impl Model for PlaneBook {
    ghost use Rattle.std.specs.Prelude.{List};
    ghost use Rattle.qm_space.specs.Plane.{Plane};
    ghost use Rattle.qm_geom.specs.inner.Numbered.{IsNumbered};

    ghost Value = { List Plane };

    ghost view = { λ b. b.planes.items };

    ghost invariant = { λ b. IsNumbered b.planes.items b.numbers };
}

impl PlaneBook {
    /// A book without planes; it takes no memory.
    pub fn new(alloc: Global) -> PlaneBook
        ensures { result ≡ [] }
    {
        PlaneBook {
            planes: Vec::new(alloc),
            numbers: BTreeMap::new(alloc),
        }
    }

    /// How many planes the book has.
    pub fn len(&self) -> u32
        ensures value { result ≡ length self.now }
        ensures planes { AreBookPlanes self.now }
    {
        self.planes.len() as u32
    }

    /// Whether the book has no plane.
    pub fn is_empty(&self) -> bool
        ensures { IsTrue result ↔ (self.now ≡ []) }
    {
        self.planes.is_empty()
    }

    /// The plane of a number.
    pub fn plane(&self, n: u32) -> Plane
        requires { n < length self.now }
        ensures value { slice_get self.now n ≡ Some result }
        ensures leads { IsTrue (leads_positive result) }
        ensures reduced { IsReduced result }
    {
        self.planes[n as usize]
    }

    /// The planes in the order of their numbers.
    pub fn planes(&self) -> &[Plane]
        ensures value { result.now ≡ self.now }
        ensures planes { AreBookPlanes self.now }
    {
        &self.planes
    }

    /// The number of a plane. `None` exactly where the book does not have it.
    pub fn find(&self, plane: &Plane) -> Option<u32>
        ensures { MatchOption result ((n : ℕ) → slice_get self.now n ≡ Some plane.now → ⊥) (λ n. slice_get self.now n ≡ Some plane.now) }
    {
        self.numbers.get(plane).copied()
    }

    /// The number of a plane, which enters the book at its end if it is not there yet. Numbers given
    /// earlier stay. Where memory runs out, the book stays as it was.
    pub fn number(&mut self, plane: Plane) -> Result<u32, AllocError>
        requires leads { IsTrue (leads_positive plane) }
        requires room { length self.old < 2 ^ 32 - 1 }
        ensures ok { IfOk result (EntersBook self.old self.new plane) }
        ensures placed { IfOk result (λ n. slice_get self.new n ≡ Some plane) }
        ensures length { length self.new ≤ length self.old + 1 }
        ensures err { OnErr result (self.new ≡ self.old) }
        ensures planes { AreBookPlanes self.new }
    {
        if let Some(number) = self.numbers.get(&plane).copied() {
            return Ok(number);
        }
        // Each plane is in lowest terms, as its fields show, so all planes of the book are.
        let _ = &plane.nx;
        let number = self.planes.len() as u32;
        self.planes.reserve(1)?;
        self.numbers.insert(plane, number)?;
        self.planes.push(plane)?;
        Ok(number)
    }
}
