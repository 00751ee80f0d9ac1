use qm_compile::{OpenGate, Status, exit_number, run};
use qm_shelf::{MemShelf, MemSink};
use std::alloc::{AllocError, Global};
use std::thread::Threads;

/// A shelf that holds a text under `map` and another file, and a sink to which nothing was written.
#[derive(Drop)]
pub struct Outside {
    pub shelf: MemShelf,
    pub sink: MemSink,
}

impl Outside {
    pub fn new(alloc: Global, text: &[u8]) -> Result<Outside, AllocError> {
        let mut shelf = MemShelf::new(alloc);
        shelf.put("map", text)?;
        shelf.put("other", b"kept")?;
        Ok(Outside {
            shelf,
            sink: MemSink::new(alloc),
        })
    }

    /// Runs the program on these words: the status with which it ends.
    pub fn runs<R: AllocGlobal + Threads + Sync>(&mut self, rt: &R, words: &[&str]) -> u8 {
        let answer: Status = run(
            rt,
            rt.alloc(),
            words,
            &mut self.shelf,
            &mut self.sink,
            &OpenGate,
        );
        exit_number(answer)
    }

    /// Whether the program, run on these words, ends with this status and prints this text.
    pub fn says<R: AllocGlobal + Threads + Sync>(
        &mut self,
        rt: &R,
        words: &[&str],
        status: u8,
        printed: &str,
    ) -> bool {
        self.runs(rt, words) == status && self.sink.bytes() == printed.as_bytes()
    }

    /// Whether `out` holds so many bytes.
    pub fn has_long_out(&self, length: usize) -> bool {
        self.shelf
            .get("out")
            .is_some_and(|file| file.len() == length)
    }

    /// Whether `out` holds these bytes, `map` this text and the other file what it held, and so many reads,
    /// writes and prints failed.
    pub fn holds(&self, out: Option<&[u8]>, text: &[u8], faults: [u64; 3]) -> bool {
        self.shelf.get("out") == out
            && self.shelf.get("map") == Some(text)
            && self.shelf.get("other") == Some(b"kept".as_slice())
            && self.shelf.read_faults() == faults[0]
            && self.shelf.write_faults() == faults[1]
            && self.sink.faults() == faults[2]
    }
}

/// What a run answers and prints, and how many reads, writes and prints failed.
pub type Answer = (u8, &'static str, [u64; 3]);
