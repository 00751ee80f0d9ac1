//! A store of named files, whose faults are counted.

ghost use Rattle.std.specs.Prelude.{ℕ, ◌≡◌, ◌≤◌, List, length, Bool, Option, IsTrue, IfOk, IsSome, MatchResult};
ghost use Rattle.qm_surroundings.specs.Counts.{Stays, StaysElsewhere, NeverFall};
ghost use Rattle.qm_shelf.specs.FaultCounts.{ShelfCounted};
ghost use Rattle.qm_shelf.specs.Reads.{IsRead};
ghost use Rattle.qm_shelf.specs.Writes.{IsEmptied, IsKeptOrEmptied, IsAdded, IsPrefixAdded};

use std::alloc::AllocError;

/// The largest place from which a read may start, in bytes: a gibibyte and one byte.
pub const FARTHEST_PLACE: u64 = 1_073_741_825;

/// The most bytes that are read or written at once where a file is read or written whole.
pub const PIECE: usize = 65_536;

/// Why a call of a shelf did not do its work.
#[derive(Clone, Copy)]
pub enum ShelfFault {
    /// The shelf failed, and the fault was counted.
    Failed,
    /// Memory ran out. No fault is counted.
    Memory,
}

impl From<AllocError> for ShelfFault {
    ghost use Rattle.qm_shelf.specs.declared.shelf.ShelfFault.TheVariants.{Memory};

    ghost from_gives = { λ _ fault. fault ≡ Memory };

    fn from(_error: AllocError) -> ShelfFault {
        ShelfFault::Memory
    }
}

/// A store of named files. A file is known by its name's bytes, and for each name the store counts
/// the faults of reading and those of writing. No count falls, and a call that answers `Failed`
/// raises its kind's count of its name, unless that count stands at the end of its type already.
pub trait Shelf {
    /// Whether this form tells what it holds.
    ghost tells: { Bool };

    /// The bytes under a name, and `None` where the name is not held.
    ghost held: { Self → List ℕ → Option (List ℕ) };

    /// How many faults reading a name has met.
    ghost read_faults: { Self → List ℕ → ℕ };

    /// How many faults creating a name or appending to it has met.
    ghost write_faults: { Self → List ℕ → ℕ };

    /// Copies bytes of the file `name`, from place `at` on, to the beginning of `into`, and answers how
    /// many: 0 only at or past the file's end, or where `into` is empty. The rest of `into` stays,
    /// and so does all of it after a fault. A name that is not held has no bytes.
    fn read(&mut self, name: &str, at: u64, into: &mut [u8]) -> Result<usize, ShelfFault>
        requires { at ≤ FARTHEST_PLACE }
        ensures bytes { IsTrue tells → MatchResult result (IsRead (held self.old name.now) at into.old into.new) (λ _. into.new ≡ into.old) }
        ensures count { IfOk result (λ count. count ≤ length into.new) }
        ensures held_stays { Stays (held self.old) (held self.new) }
        ensures read_faults_never_fall { NeverFall (read_faults self.old) (read_faults self.new) }
        ensures read_faults_counted { ShelfCounted result name.now (read_faults self.old) (read_faults self.new) }
        ensures write_faults_stay { Stays (write_faults self.old) (write_faults self.new) };

    /// Makes the file `name` hold no bytes, whether it was held or not. After a fault it is as before
    /// or holds no bytes. Other files stay.
    fn create(&mut self, name: &str) -> Result<(), ShelfFault>
        ensures bytes { IsTrue tells → MatchResult result (λ _. IsEmptied (held self.new name.now)) (λ _. IsKeptOrEmptied (held self.old name.now) (held self.new name.now)) }
        ensures others_stay { StaysElsewhere name.now (held self.old) (held self.new) }
        ensures read_faults_stay { Stays (read_faults self.old) (read_faults self.new) }
        ensures write_faults_never_fall { NeverFall (write_faults self.old) (write_faults self.new) }
        ensures write_faults_counted { ShelfCounted result name.now (write_faults self.old) (write_faults self.new) };

    /// Adds `bytes` at the end of the file `name`, which is held. After a fault some of the first of
    /// them were added: none, all, or any number between. Other files stay.
    fn append(&mut self, name: &str, bytes: &[u8]) -> Result<(), ShelfFault>
        requires { IsTrue tells → IsSome (held self.old name.now) }
        ensures bytes { IsTrue tells → MatchResult result (λ _. IsAdded (held self.old name.now) bytes.now (held self.new name.now)) (λ _. IsPrefixAdded (held self.old name.now) bytes.now (held self.new name.now)) }
        ensures others_stay { StaysElsewhere name.now (held self.old) (held self.new) }
        ensures read_faults_stay { Stays (read_faults self.old) (read_faults self.new) }
        ensures write_faults_never_fall { NeverFall (write_faults self.old) (write_faults self.new) }
        ensures write_faults_counted { ShelfCounted result name.now (write_faults self.old) (write_faults self.new) };
}
