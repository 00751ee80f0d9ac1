//! What cuts a winding by planes.

ghost use Rattle.std.specs.Prelude.{◌≡◌, ◌≤◌, length, IsOk, IfOk, OnOk, OnErr, MatchOption};
ghost use Rattle.qm_space.specs.Turned.{turned};
ghost use Rattle.qm_convex.specs.Winding.{Winding as WindingValue};
ghost use Rattle.qm_convex.specs.Cut.{IsPartInFront, IsPartWithin, HasNoneWithin};
ghost use Rattle.qm_convex.specs.Sides.{HasNoneInFront};
ghost use Rattle.qm_convex.specs.World.{LiesWithin};
ghost use Rattle.qm_wind.specs.Clipped.{IsClip, IsCutDown, is_front};
ghost use Rattle.qm_wind.specs.Severing.{IsSevered};
ghost use Rattle.qm_wind.specs.Split.{IsSplit};
ghost use Rattle.qm_wind.specs.inner.Surveyed.{IsRun};
ghost use Rattle.qm_wind.specs.inner.Finding.{HasCornersAcross};

use crate::found::Found;
use crate::halves::Halves;
use crate::severed::Severed;
use crate::survey::Run;
use crate::winding::{Clip, Side, Winding};
use qm_geom::{Cuboid, Plane};
use std::alloc::AllocError;

impl Winding {
    /// What is left of the winding on one side of a plane. `Gone` exactly where none of its points is
    /// strictly on that side, `Whole` exactly where each is. No memory is wanted for at most seven corners.
    pub fn clip(&self, plane: &Plane, keep: Side) -> Result<Clip, AllocError>
        ensures clip { IfOk result (λ clip. IsClip clip self.now (turned (is_front keep) plane.now)) }
        ensures inline { length self.now.edges ≤ 7 → IsOk result }
    {
        match keep {
            Side::Front => self.in_front_of(plane),
            Side::Back => self.in_front_of(&plane.flipped()),
        }
    }

    /// What is left in front of a plane.
    fn in_front_of(&self, plane: &Plane) -> Result<Clip, AllocError>
        ensures clip { IfOk result (λ clip. IsClip clip self.now plane.now) }
        ensures inline { length self.now.edges ≤ 7 → IsOk result }
    {
        let _ = &self.polygon;
        match self.found(plane) {
            Found::Front => Ok(Clip::Whole),
            Found::Back => Ok(Clip::Gone),
            Found::On => Ok(Clip::Gone),
            Found::Across(survey) => Ok(Clip::Cut(self.part(plane, &survey.front)?)),
        }
    }

    /// The winding cut down to what it has on one side of a plane. `None` exactly where none of its points is strictly on
    /// that side.
    pub fn keep(self, plane: &Plane, side: Side) -> Result<Option<Winding>, AllocError>
        ensures { IfOk result (λ left.
            MatchOption left (HasNoneInFront self (turned (is_front side) plane.now)) (λ w. IsPartInFront w self (turned (is_front side) plane.now))) }
    {
        let mut left = self;
        if left.cut(plane, side)? {
            Ok(Some(left))
        } else {
            Ok(None)
        }
    }

    /// The same, in its place. `false` exactly where none of its points is strictly on that side: then, and where memory runs
    /// out, it stays as it is.
    pub fn cut(&mut self, plane: &Plane, side: Side) -> Result<bool, AllocError>
        ensures ok { IfOk result (λ left. IsCutDown left self.new self.old (turned (is_front side) plane.now)) }
        ensures err { OnErr result (self.new ≡ self.old) }
    {
        match side {
            Side::Front => self.cut_in_front_of(plane),
            Side::Back => self.cut_in_front_of(&plane.flipped()),
        }
    }

    /// The winding cut down to what it has in front of a plane.
    fn cut_in_front_of(&mut self, plane: &Plane) -> Result<bool, AllocError>
        ensures ok { IfOk result (λ left. IsCutDown left self.new self.old plane.now) }
        ensures err { OnErr result (self.new ≡ self.old) }
    {
        let _ = &self.polygon;
        match self.found(plane) {
            Found::Front => Ok(true),
            Found::Back => Ok(false),
            Found::On => Ok(false),
            Found::Across(survey) => {
                self.cut_down(plane, &survey.front)?;
                Ok(true)
            }
        }
    }

    /// The winding cut down to what it has in front of each of some planes. `None` exactly where none of its points is
    /// there.
    pub fn keep_all(self, planes: &[Plane]) -> Result<Option<Winding>, AllocError>
        ensures { IfOk result (λ left. MatchOption left (HasNoneWithin self planes.now) (λ w. IsPartWithin w self planes.now)) }
    {
        let _corners = self.len();
        let mut left = self;
        for plane in planes {
            if !left.cut(plane, Side::Front)? {
                return Ok(None);
            }
        }
        Ok(Some(left))
    }

    /// The parts of the winding on both sides of a plane. Where it lies wholly on one side, it is that
    /// part itself; where it lies in the plane, there is none.
    pub fn split(self, plane: &Plane) -> Result<Halves, AllocError>
        ensures { IfOk result (λ halves. IsSplit halves self plane.now) }
    {
        match self.found(plane) {
            Found::Front => Ok(Halves {
                front: Some(self),
                back: None,
            }),
            Found::Back => Ok(Halves {
                front: None,
                back: Some(self),
            }),
            Found::On => Ok(Halves {
                front: None,
                back: None,
            }),
            Found::Across(survey) => Ok(Halves {
                front: Some(self.part(plane, &survey.front)?),
                back: Some(self.part(&plane.flipped(), &survey.back)?),
            }),
        }
    }

    /// Cuts the winding down to its part in front of a plane where it has points on both sides, and hands out the part
    /// behind; else it stays as it is. Where memory runs out, it stays as it was.
    pub fn sever(&mut self, plane: &Plane) -> Result<Severed, AllocError>
        ensures ok { IfOk result (λ severed. IsSevered severed self.old self.new plane.now) }
        ensures err { OnErr result (self.new ≡ self.old) }
    {
        match self.found(plane) {
            Found::Front => Ok(Severed::Front),
            Found::Back => Ok(Severed::Back),
            Found::On => Ok(Severed::On),
            Found::Across(survey) => {
                let behind = self.part(&plane.flipped(), &survey.back)?;
                let behind = Box::new(self.polygon.allocator(), behind)?;
                self.cut_down(plane, &survey.front)?;
                Ok(Severed::Across(behind))
            }
        }
    }

    /// Cuts the winding down to its part in front of a plane, by the run of the corners there, where some are on both
    /// sides. Where memory runs out, it stays as it was.
    fn cut_down(&mut self, plane: &Plane, run: &Run) -> Result<(), AllocError>
        requires run { IsRun self.old plane.now run.now }
        requires across { HasCornersAcross self.old plane.now }
        ensures ok { OnOk result (IsPartInFront self.new self.old plane.now) }
        ensures err { OnErr result (self.new ≡ self.old) }
    {
        let cuboid = self.part_cuboid(plane);
        self.polygon.cut_down(plane, run)?;
        self.cuboid = cuboid;
        Ok(())
    }

    /// The part in front of a plane, by the run of the corners there, where some are on both sides.
    fn part(&self, plane: &Plane, run: &Run) -> Result<Winding, AllocError>
        requires run { IsRun self.now plane.now run.now }
        requires across { HasCornersAcross self.now plane.now }
        ensures part { IfOk result (λ w. IsPartInFront w self.now plane.now) }
        ensures inline { length self.now.edges ≤ 7 → IsOk result }
    {
        Ok(Winding {
            polygon: self.polygon.part_in_front_of(plane, run)?,
            cuboid: self.part_cuboid(plane),
        })
    }

    /// A cuboid that has all points of the part in front of a plane. That of a winding across an axis is not tightened by
    /// its own plane once more.
    fn part_cuboid(&self, plane: &Plane) -> Cuboid
        ensures { (w : WindingValue) → IsPartInFront w self.now plane.now → LiesWithin w result }
    {
        let own = self.polygon.plane();
        let tightened = self.cuboid.tightened(plane);
        if is_across_an_axis(&own) {
            tightened
        } else {
            tightened.tightened_on(&own)
        }
    }
}

/// Whether a plane is across an axis.
fn is_across_an_axis(plane: &Plane) -> bool {
    (plane.nx == 0 && (plane.ny == 0 || plane.nz == 0)) || (plane.ny == 0 && plane.nz == 0)
}
