ghost use Rattle.std.specs.Prelude.{◌≡◌, [], IfOk, OnOk};

use crate::list::take_all;
use qm_lists::Parts;
use qm_mapfile::{Brush, Entity, Pair};
use std::alloc::{AllocError, Global};
use std::marker::Model;

/// What the entities without pairs share, and those without brushes. Contracts see nothing of it.
#[derive(Drop)]
pub(crate) struct Empties {
    pairs: Parts<Pair>,
    brushes: Parts<Brush>,
}

impl Model for Empties {
    ghost use Rattle.std.specs.Prelude.{◌≡◌, []};

    ghost Value = { Unit {0} };

    ghost view = { λ empties. tt };

    ghost invariant = { λ empties. (empties.pairs ≡ []) × (empties.brushes ≡ []) };
}

impl Empties {
    pub(crate) fn new(alloc: Global) -> Result<Empties, AllocError> {
        let pairs = Parts::none(alloc)?;
        let brushes = Parts::none(alloc)?;
        Ok(Empties { pairs, brushes })
    }

    /// The entity of these pairs and brushes. The brushes are taken out of their list.
    pub(crate) fn entity_of(
        &self,
        alloc: Global,
        pairs: Vec<Pair>,
        brushes: &mut Vec<Brush>,
    ) -> Result<Entity, AllocError>
        ensures entity { IfOk result (λ entity. entity ≡ record { pairs = pairs.items; brushes = brushes.old.items }) }
        ensures taken { OnOk result (brushes.new.items ≡ []) }
    {
        let brushes = take_all(alloc, brushes)?;
        let pairs = Parts::from_vec(alloc, pairs, &self.pairs)?;
        let brushes = Parts::from_vec(alloc, brushes, &self.brushes)?;
        Ok(Entity { pairs, brushes })
    }
}
