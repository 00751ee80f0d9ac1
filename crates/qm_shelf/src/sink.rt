//! A sink for printed text, whose faults are counted.

ghost use Rattle.std.specs.Prelude.{ℕ, ◌≡◌, ◌≤◌, ◌++◌, List, Bool, IsTrue, MatchResult};
ghost use Rattle.qm_shelf.specs.FaultCounts.{SinkCounted};
ghost use Rattle.qm_surroundings.specs.HeldFile.{ContinuesInto};

use std::alloc::AllocError;

/// Why a call of a sink did not do its work.
#[derive(Clone, Copy)]
pub enum SinkFault {
    /// The sink failed, and the fault was counted.
    Failed,
    /// Memory ran out. No fault is counted.
    Memory,
}

impl From<AllocError> for SinkFault {
    ghost use Rattle.qm_shelf.specs.declared.sink.SinkFault.TheVariants.{Memory};

    ghost from_gives = { λ _ fault. fault ≡ Memory };

    fn from(_error: AllocError) -> SinkFault {
        SinkFault::Memory
    }
}

/// A sink for printed text, which counts the faults of writing. The count never falls, and a call that
/// answers `Failed` raises it, unless it stands at the end of its type already.
pub trait Sink {
    /// Whether this form tells what was written.
    ghost tells: { Bool };

    /// The bytes written so far.
    ghost written: { Self → List ℕ };

    /// How many faults writing has met.
    ghost faults: { Self → ℕ };

    /// Writes `bytes` after all that was written before. After a fault some of the first of them were
    /// written: none, all, or any number between.
    fn write(&mut self, bytes: &[u8]) -> Result<(), SinkFault>
        ensures bytes { IsTrue tells → MatchResult result (λ _. written self.new ≡ written self.old ++ bytes.now) (λ _. ContinuesInto (written self.old) bytes.now (written self.new)) }
        ensures faults_never_fall { faults self.old ≤ faults self.new }
        ensures faults_counted { SinkCounted result (faults self.old) (faults self.new) };
}
