//! How far the workers are, on a line of the terminal.

use crate::terminal::is_terminal;
use qm_compile::Gate;
use std::rt::{Clock, Files};
use std::sync::atomic::{AtomicU64, Ordering};
use std::time::Instant;

/// At least so many milliseconds pass from one line to the next.
const PAUSE: u64 = 1000;

/// A gate that counts the portals that workers have begun, and says so on the standard error where that is a terminal, once
/// a second at most. It takes no lock: of several workers the one speaks that sets the time of speaking.
#[derive(Drop)]
pub struct Progress<'a, R> {
    rt: &'a R,
    /// When the program began, where it may speak.
    start: Option<Instant>,
    begun: AtomicU64,
    /// When a line was said last, in milliseconds from the start, and 0 where there is none to be seen.
    said: AtomicU64,
}

impl<'a, R: AllocGlobal + Clock + Eprint + Files> Progress<'a, R> {
    /// No portal is begun, and no line is said.
    pub fn new(rt: &'a R) -> Progress<'a, R> {
        let start = if is_terminal(rt) {
            Instant::now(rt).ok()
        } else {
            None
        };
        Progress {
            rt,
            start,
            begun: AtomicU64::new(0),
            said: AtomicU64::new(0),
        }
    }
}

impl<'a, R: Clock + Eprint> Progress<'a, R> {
    /// Takes the line away, where there is one.
    pub fn clear(&self) {
        if self.said.swap(0, Ordering::SeqCst) != 0 {
            let _ = eprint!(self.rt; "\r{:35}\r", "");
        }
    }

    /// Whether it is time for a line, and this worker is the one to say it.
    fn is_due(&self) -> bool {
        let Some(now) = self.milliseconds() else {
            return false;
        };
        let said = self.said.load(Ordering::SeqCst);
        now >= said.saturating_add(PAUSE)
            && self
                .said
                .compare_exchange(said, now, Ordering::SeqCst, Ordering::SeqCst)
                .is_ok()
    }

    /// The milliseconds from the start, where the program may speak and the clock can be read.
    fn milliseconds(&self) -> Option<u64> {
        let passed = self.start?.elapsed(self.rt).ok()?;
        u64::try_from(passed.as_millis()).ok()
    }
}

impl<'a, R: Clock + Eprint> Gate for Progress<'a, R> {
    fn at(&self, _portal: u64) {
        let before = self.begun.fetch_add(1, Ordering::SeqCst);
        if self.is_due() {
            let begun = before.saturating_add(1);
            let _ = eprint!(self.rt; "\rportals begun: {begun}");
        }
    }

    fn given(&self, _portal: u64, _source: u64, _k: u64, _word: u64) {}
}
