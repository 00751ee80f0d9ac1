//! The sink over the standard output.

ghost use Rattle.std.specs.Prelude.{◌≡◌, ◌≤◌, ◌++◌, [], false, IsTrue, IfErr, OnErr, MatchResult};
ghost use Rattle.qm_shelf.specs.CallNumbers.{one_more};
ghost use Rattle.qm_shelf.specs.FaultCounts.{SinkCounted};
ghost use Rattle.qm_surroundings.specs.HeldFile.{ContinuesInto};

use crate::calls::one_more;
use crate::sink::{Sink, SinkFault};

/// The standard output, which is not buffered. It tells nothing of what was written. Its count of
/// faults rises by one at each error and stays at 2^64 - 1 once it is there.
#[derive(Drop)]
pub struct TermSink<'a, R> {
    rt: &'a R,
    faults: u64,
}

impl<'a, R: Print> TermSink<'a, R> {
    /// The standard output, before any fault. It takes no memory.
    pub fn over(rt: &'a R) -> TermSink<'a, R>
        ensures { ⟦<TermSink<'a, R> as Sink>⟧.faults result ≡ 0 }
    {
        TermSink { rt, faults: 0 }
    }
}

impl<'a, R: Print> Sink for TermSink<'a, R> {
    ghost tells = { false };

    ghost written = { λ sink. [] };

    ghost faults = { λ sink. sink.faults };

    fn write(&mut self, bytes: &[u8]) -> Result<(), SinkFault>
        ensures bytes { IsTrue false → MatchResult result (λ _. [] ≡ [] ++ bytes.now) (λ _. ContinuesInto [] bytes.now []) }
        ensures faults_never_fall { self.old.faults ≤ self.new.faults }
        ensures faults_counted { SinkCounted result self.old.faults self.new.faults }
        ensures takes_no_memory { IfErr result (λ fault. fault ≡ SinkFault.Failed) }
        ensures by_one { OnErr result (self.new.faults ≡ one_more self.old.faults) }
    {
        match self.rt.write_all(bytes) {
            Ok(()) => Ok(()),
            Err(_) => {
                self.faults = one_more(self.faults);
                Err(SinkFault::Failed)
            }
        }
    }
}
