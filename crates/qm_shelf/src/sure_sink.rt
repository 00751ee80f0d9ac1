//! A sink in memory that never fails.

ghost use Rattle.std.specs.Prelude.{◌≡◌, ◌++◌, [], true, Err, OnOk, OnErr};
ghost use Rattle.qm_shelf.specs.SureForms.{written};

use crate::sink::{Sink, SinkFault};
use std::alloc::Global;

/// A sink in memory whose writes never answer `Failed`, so that its count of faults is always 0.
#[derive(Drop)]
pub struct SureSink {
    bytes: Vec<u8>,
}

impl SureSink {
    /// A sink to which nothing was written.
    pub fn new(alloc: Global) -> SureSink
        ensures { written result ≡ [] }
    {
        SureSink {
            bytes: Vec::new(alloc),
        }
    }

    /// All that was written.
    pub fn bytes(&self) -> &[u8]
        ensures { result.now ≡ written self.now }
    {
        self.bytes.as_slice()
    }
}

impl Sink for SureSink {
    ghost tells = { true };

    ghost written = { written };

    ghost faults = { λ sink. 0 };

    fn write(&mut self, bytes: &[u8]) -> Result<(), SinkFault>
        ensures never_fails { result ≡ Err SinkFault.Failed → ⊥ }
        ensures ok { OnOk result (written self.new ≡ written self.old ++ bytes.now) }
        ensures err { OnErr result (written self.new ≡ written self.old) }
    {
        self.bytes.extend_from_slice(bytes)?;
        Ok(())
    }
}
