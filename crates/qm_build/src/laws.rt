//! The laws of the tree that solids define, for any solids and any book that has the planes of all their faces. Each
//! function does nothing: its clause is the law.

ghost use Rattle.std.specs.Prelude.{◌≡◌, ◌⊎◌, List, Contains};
ghost use Rattle.qm_space.specs.Plane.{Plane};
ghost use Rattle.qm_space.specs.Book.{AreBookPlanes};
ghost use Rattle.qm_solids.specs.Solid.{Solid};
ghost use Rattle.qm_solids.specs.Holding.{IsFull};
ghost use Rattle.qm_solids.specs.Cells.{ContainsCell};
ghost use Rattle.qm_solids.specs.Candidates.{IsOutdone};
ghost use Rattle.qm_solids.specs.Uniform.{LiesOutside};
ghost use Rattle.qm_partition.specs.Tree.{Tree};
ghost use Rattle.qm_solid_tree.specs.Division.{HasPlanesOf, HasNoCandidate};
ghost use Rattle.qm_solid_tree.specs.GivesContents.{GivesContents};
ghost use Rattle.qm_solid_tree.specs.TreeOf.{IsTreeOf};

/// A cell without a candidate lies wholly inside or wholly outside each full solid for which no solid at least as strong
/// contains the cell.
pub fn inside_or_outside()
    ensures { (solids : List Solid) (book cell : List Plane) → HasPlanesOf book solids → HasNoCandidate solids book cell →
        (solid : Solid) → Contains solids solid → IsFull solid → (IsOutdone solids cell solid → ⊥) →
        ContainsCell solid cell ⊎ LiesOutside solid cell }
{}

/// Joining keeps the contents of each point of a joined cell that is off the node planes left: the joined tree gives the
/// contents that the solids define.
pub fn joining_keeps_contents()
    ensures { (solids : List Solid) (book : List Plane) → AreBookPlanes book → HasPlanesOf book solids →
        (tree : Tree) → IsTreeOf solids book tree → GivesContents tree solids }
{}

/// Solids define one tree with a book.
pub fn one_tree()
    ensures { (solids : List Solid) (book : List Plane) (tree other : Tree) →
        IsTreeOf solids book tree → IsTreeOf solids book other → tree ≡ other }
{}
