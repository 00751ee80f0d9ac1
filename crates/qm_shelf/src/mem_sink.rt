//! A sink in memory, for tests, whose calls fail where the test says.

ghost use Rattle.std.specs.Prelude.{◌≡◌, ◌↔◌, ◌++◌, ◌∷◌, [], true, IsTrue, OnOk, OnErr};
ghost use Rattle.qm_shelf.specs.CallNumbers.{one_more, raised_if};
ghost use Rattle.qm_shelf.specs.MemorySink.{written, calls, failing, faults, is_next_listed};

use crate::calls::{Calls, one_more};
use crate::sink::{Sink, SinkFault};
use std::alloc::{AllocError, Global};

/// A sink in memory. It numbers its writes from 0, and the number stays at 2^64 - 1 once it is there. A
/// write answers `Failed` exactly where its number is listed; it then adds nothing and raises the
/// count of faults, which stays at 2^64 - 1 once it is there. No other write raises the count.
#[derive(Drop)]
pub struct MemSink {
    bytes: Vec<u8>,
    calls: Calls,
    faults: u64,
}

impl MemSink {
    /// A sink to which nothing was written, before its write number 0, and no write is to fail.
    pub fn new(alloc: Global) -> MemSink
        ensures written { written result ≡ [] }
        ensures calls { calls result ≡ 0 }
        ensures failing { failing result ≡ [] }
        ensures faults { faults result ≡ 0 }
    {
        MemSink {
            bytes: Vec::new(alloc),
            calls: Calls::new(alloc),
            faults: 0,
        }
    }

    /// All that was written.
    pub fn bytes(&self) -> &[u8]
        ensures { result.now ≡ written self.now }
    {
        self.bytes.as_slice()
    }

    /// Lists the number of a write that is to fail. For want of memory nothing changes.
    pub fn fail_call(&mut self, call: u64) -> Result<(), AllocError>
        ensures ok { OnOk result (failing self.new ≡ failing self.old ++ call ∷ []) }
        ensures err { OnErr result (failing self.new ≡ failing self.old) }
        ensures written_stays { written self.new ≡ written self.old }
        ensures calls_stay { calls self.new ≡ calls self.old }
        ensures faults_stay { faults self.new ≡ faults self.old }
    {
        self.calls.fail(call)
    }

    /// How many writes failed.
    pub fn faults(&self) -> u64
        ensures { result ≡ faults self.now }
    {
        self.faults
    }
}

impl Sink for MemSink {
    ghost tells = { true };

    ghost written = { written };

    ghost faults = { faults };

    fn write(&mut self, bytes: &[u8]) -> Result<(), SinkFault>
        ensures fails { result ≡ Err SinkFault.Failed ↔ IsTrue (is_next_listed self.old) }
        ensures ok { OnOk result (written self.new ≡ written self.old ++ bytes.now) }
        ensures err { OnErr result (written self.new ≡ written self.old) }
        ensures calls { calls self.new ≡ one_more (calls self.old) }
        ensures failing { failing self.new ≡ failing self.old }
        ensures faults { faults self.new ≡ raised_if (is_next_listed self.old) (faults self.old) }
    {
        if self.calls.begin() {
            self.faults = one_more(self.faults);
            return Err(SinkFault::Failed);
        }
        self.bytes.extend_from_slice(bytes)?;
        Ok(())
    }
}
