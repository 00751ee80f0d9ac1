//! A sink that is written to once the line of progress is gone.

use crate::progress::Progress;
use qm_shelf::{Sink, SinkFault};
use std::rt::Clock;

/// A sink that writes as another one does, and takes the line of progress away before.
#[derive(Drop)]
pub struct ClearedSink<'a, 'b, R, S> {
    sink: S,
    progress: &'a Progress<'b, R>,
}

impl<'a, 'b, R, S> ClearedSink<'a, 'b, R, S> {
    /// The sink, beside the line of progress.
    pub fn over(sink: S, progress: &'a Progress<'b, R>) -> ClearedSink<'a, 'b, R, S> {
        ClearedSink { sink, progress }
    }
}

impl<'a, 'b, R: Clock + Eprint, S: Sink> Sink for ClearedSink<'a, 'b, R, S> {
    ghost tells = { S.tells };

    ghost written = { λ cleared. S.written cleared.sink };

    ghost faults = { λ cleared. S.faults cleared.sink };

    fn write(&mut self, bytes: &[u8]) -> Result<(), SinkFault> {
        self.progress.clear();
        self.sink.write(bytes)
    }
}
