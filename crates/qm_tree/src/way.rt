ghost use Rattle.std.specs.Prelude.{◌≡◌, ◌==◌, length};

use qm_partition::Step;
use std::marker::Model;

/// The steps from the root down to a leaf, the root's first. Contracts see it as the list of its steps.
#[derive(Drop)]
pub struct Way {
    steps: Vec<Step>,
}

impl Model for Way {
    ghost use Rattle.qm_partition.specs.Ways.{Way};

    ghost Value = { Way };

    ghost view = { λ way. way.steps.items };
}

impl Way {
    /// The way of these steps.
    pub(crate) fn of(steps: Vec<Step>) -> Way
        ensures { result ≡ steps.items }
    {
        Way { steps }
    }

    /// The steps in order.
    pub fn steps(&self) -> &[Step]
        ensures { result.now ≡ self.now }
    {
        self.steps.as_slice()
    }

    /// How many steps there are.
    pub fn len(&self) -> usize
        ensures { result ≡ length self.now }
    {
        self.steps.len()
    }

    /// Whether there is no step: the way to the only leaf of a tree.
    pub fn is_empty(&self) -> bool
        ensures { result ≡ (length self.now == 0) }
    {
        self.steps.is_empty()
    }
}
