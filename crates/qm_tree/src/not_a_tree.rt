use std::alloc::AllocError;

/// Why parts are not put together to a tree.
#[derive(Clone, Copy, Debug, PartialEq, Eq)]
pub enum NotATree {
    /// No tree has these planes, nodes and leaves.
    NotNumbered,
    /// Memory ran out.
    Memory,
}

impl From<AllocError> for NotATree {
    ghost use Rattle.std.specs.Prelude.{◌≡◌};
    ghost use Rattle.qm_tree.specs.declared.not_a_tree.NotATree.TheVariants.{Memory};

    ghost from_gives = { λ _ fault. fault ≡ Memory };

    fn from(_fault: AllocError) -> NotATree {
        NotATree::Memory
    }
}
