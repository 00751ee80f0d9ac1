ghost use Rattle.std.specs.Prelude.{◌≡◌, ◌++◌, IfOk, OnOk, Option, option_to_list};
ghost use Rattle.qm_space.specs.Plane.{Plane, flipped};
ghost use Rattle.qm_faces.specs.inner.Cuts.{IsCutOnce};

use qm_geom::Plane;
use qm_wind::{Severed, Winding};
use std::alloc::{AllocError, Global};
use std::marker::Model;

/// A part of a contact that is still to be cut, or that an owner has.
#[derive(Drop)]
pub(crate) struct Part {
    pub(crate) winding: Box<Winding>,
}

impl Model for Part {
    ghost use Rattle.qm_convex.specs.Winding.{Winding};

    ghost Value = { Winding };

    ghost view = { λ part. part.winding.value };
}

impl Part {
    /// The whole of a polygon.
    pub(crate) fn whole(alloc: Global, winding: &Winding) -> Result<Part, AllocError>
        ensures { IfOk result (λ part. part ≡ winding.now) }
    {
        let winding = Box::new(alloc, winding.copy()?)?;
        Ok(Part { winding })
    }

    /// Cuts the part by a plane that is turned inward: what is behind it is left, and what is in front goes on.
    pub(crate) fn cut(
        self,
        inward: &Plane,
        left: &mut Vec<Part>,
    ) -> Result<Option<Part>, AllocError>
        ensures { IfOk result (λ inner. (outward : Plane) → inward.now ≡ flipped outward → IsCutOnce outward self inner left.old.items left.new.items) }
    {
        let _corners = self.winding.len();
        let mut part = self;
        match part.winding.sever(inward)? {
            Severed::Front => Ok(Some(part)),
            Severed::Back => {
                left.push(part)?;
                Ok(None)
            }
            Severed::On => Ok(None),
            Severed::Across(winding) => {
                left.push(Part { winding })?;
                Ok(Some(part))
            }
        }
    }
}

/// Adds a part, if there is one.
pub(crate) fn push_some(parts: &mut Vec<Part>, part: Option<Part>) -> Result<(), AllocError>
    ensures { OnOk result (parts.new.items ≡ parts.old.items ++ option_to_list part) }
{
    if let Some(part) = part {
        parts.push(part)?;
    }
    Ok(())
}
