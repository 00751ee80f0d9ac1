ghost use Rattle.std.specs.Prelude.{◌≡◌, ◌<◌, ◌*◌, Bool, List, length};
ghost use Rattle.qm_contacts.specs.NumberedLeaves.{numbered_leaves};
ghost use Rattle.qm_contacts.specs.World.{World};
ghost use Rattle.qm_sight.specs.WordInSight.{IsWordWithin, LacksNoneInSight, ceiling_of, LieWithin};

/// Where rows of portals are read, word by word. A portal's row has a place for each numbered leaf. Two reads of one
/// word may differ, but each answer has all leaves in sight of its portal.
pub trait RowSource {
    /// The world of the portals.
    ghost world: { Self → World };

    /// For each portal the leaves that an answer can have.
    ghost ceilings: { Self → List (List Bool) };

    /// The second state goes on from the first.
    ghost goes_on: { Self → Self → Type 0 };

    /// Word `k` of the row of a portal: its bits are the leaves from `64 * k` on. It takes no memory.
    fn word(&mut self, portal: u64, k: u64) -> u64
        requires portal_in_range { portal < length (world self.old).portals }
        requires word_in_range { 64 * k < length (numbered_leaves (world self.old).tree) }
        ensures within { IsWordWithin (ceiling_of (ceilings self.old) portal) k result }
        ensures sound { LacksNoneInSight (world self.old) portal k result }
        ensures on { goes_on self.old self.new };

    ghost goes_on_itself: { (s : Self) → goes_on s s };

    ghost goes_on_in_turn: { (a b c : Self) → goes_on a b → goes_on b c → goes_on a c };

    ghost same_world: { (a b : Self) → goes_on a b → world b ≡ world a };

    ghost narrower: { (a b : Self) → goes_on a b → LieWithin (ceilings b) (ceilings a) };
}
