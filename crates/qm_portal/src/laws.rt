//! The laws of meetings, contacts and portals. Each function does nothing: its clause is the law.

ghost use Rattle.std.specs.Prelude.{◌≡◌, ◌<◌, ℕ, List, All, Contains};
ghost use Rattle.qm_space.specs.Point.{Point};
ghost use Rattle.qm_partition.specs.Tree.{Tree};
ghost use Rattle.qm_partition.specs.Counting.{leaf_count};
ghost use Rattle.qm_partition.specs.Ways.{HasPoints};
ghost use Rattle.qm_contacts.specs.Meeting.{Meeting, meetings};
ghost use Rattle.qm_contacts.specs.Contact.{IsContact};
ghost use Rattle.qm_contacts.specs.Crossing.{IsCrossing};
ghost use Rattle.qm_contacts.specs.Portals.{portals_of};
ghost use Rattle.qm_contacts.specs.Touching.{Touching, AreTouchings};
ghost use Rattle.qm_contacts.specs.World.{PartsItsLeaves};

/// Each two leaves of a tree meet exactly once, the lesser number in front.
pub fn leaves_meet_once()
    ensures meet { (tree : Tree) (a b : ℕ) → a < b → b < leaf_count tree.shape →
        (m : Meeting) × Contains (meetings tree) m × (m.front.leaf ≡ a) × (m.back.leaf ≡ b) }
    ensures once { (tree : Tree) (m l : Meeting) → Contains (meetings tree) m → Contains (meetings tree) l →
        m.front.leaf ≡ l.front.leaf → m.back.leaf ≡ l.back.leaf → m ≡ l }
{}

/// Where each leaf has a point, a point at which one comes from one leaf to another, off all planes above them but the
/// parting plane, is a contact.
pub fn crossings_are_contacts()
    ensures { (tree : Tree) (m : Meeting) (x : Point) → HasPoints tree → Contains (meetings tree) m →
        IsCrossing tree.planes m x → IsContact tree.planes m x }
{}

/// The plane into which one goes through a portal has the cell of the leaf that one enters in front of it, and that of the
/// leaf that one leaves behind it.
pub fn portals_part_leaves()
    ensures { (tree : Tree) (touchings : List Touching) → AreTouchings tree.planes (meetings tree) touchings → All (PartsItsLeaves tree) (portals_of tree touchings) }
{}
