ghost use Rattle.std.specs.Prelude.{Option, ℕ, List};
ghost use Rattle.std.specs.Borrow.{ftrue};
ghost use Rattle.std.specs.Coded.{codes};
ghost use Rattle.qm_partition.specs.inner.TreeCode.{tree_code};
ghost use Rattle.qm_contacts.specs.World.{World};
ghost use Rattle.qm_shared_rows.specs.Findings.{Findings};

use std::marker::Model;

/// What a pass knows: the world of the board, or none once it is spent, the words of the rows with which the board began, and
/// what its own steps have found. No value of it is made.
pub struct View {
    pub ghost world: { Option World } by { Prim.hlevel (codes, tree_code) },
    pub ghost given: { List ℕ } by { Prim.hlevel codes },
    pub ghost findings: { Findings } by { Prim.hlevel codes },
}

impl Model for View {
    ghost also_owns = { λ _. ftrue };
}
