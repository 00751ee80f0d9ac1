use super::cube::CUBE_TEXT;
use super::cube_file::CUBE_FILE;
use super::outside::{Answer, Outside};
use super::printed::{ONE_ROOM, READ_FAULT, SUMMARY, UNEXPECTED, USAGE};
use std::alloc::AllocError;
use std::test::Fail;
use std::thread::Threads;

/// A row has the words, the write that fails, what is answered, and whether the tree file is then there.
static FAULTS_OF_THE_SINK: [(&[&str], u64, Answer, bool); 18] = [
    (&["compile", "map", "out"], 0, (6, "", [0, 0, 1]), true),
    (&["compile", "map", "out"], 1, (0, SUMMARY, [0, 0, 0]), true),
    (&["compile", "-map", "out"], 0, (6, "", [0, 0, 1]), false),
    (&["compile", "-map", "out"], 1, (2, USAGE, [0, 0, 0]), false),
    (&["compile", "other", "out"], 0, (6, "", [0, 0, 1]), false),
    (
        &["compile", "other", "out"],
        1,
        (4, UNEXPECTED, [0, 0, 0]),
        false,
    ),
    (&["compile", "absent", "out"], 0, (6, "", [1, 0, 1]), false),
    (
        &["compile", "absent", "out"],
        1,
        (5, READ_FAULT, [1, 0, 0]),
        false,
    ),
    (
        &["inspect", "absent", "count"],
        0,
        (6, "", [1, 0, 1]),
        false,
    ),
    (
        &["inspect", "absent", "count"],
        1,
        (5, READ_FAULT, [1, 0, 0]),
        false,
    ),
    (&["inspect", "map", "count"], 0, (6, "", [0, 0, 1]), false),
    (
        &["inspect", "map", "count"],
        1,
        (8, MAGIC, [0, 0, 0]),
        false,
    ),
    (&["upgrade", "absent", "out"], 0, (6, "", [1, 0, 1]), false),
    (
        &["upgrade", "absent", "out"],
        1,
        (5, READ_FAULT, [1, 0, 0]),
        false,
    ),
    (&["upgrade", "map", "out"], 0, (6, "", [0, 0, 1]), false),
    (&["upgrade", "map", "out"], 1, (8, MAGIC, [0, 0, 0]), false),
    (&["demo", "1", "0"], 0, (6, "", [0, 0, 1]), false),
    (&["demo", "1", "0"], 1, (0, ONE_ROOM, [0, 0, 0]), false),
];

/// What is said of a text that is no tree file.
const MAGIC: &str = "tree fault 2 at byte 0: magic\n";

/// Whether a run over a sink of which this write fails gives this answer, and `out` then holds these bytes.
fn prints_at<R: AllocGlobal + Threads + Sync>(
    rt: &R,
    words: &[&str],
    text: &[u8],
    write: u64,
    answer: Answer,
    out: Option<&[u8]>,
) -> Result<bool, AllocError> {
    let (status, printed, faults) = answer;
    let mut outside = Outside::new(rt.alloc(), text)?;
    outside.sink.fail_call(write)?;
    let says = outside.says(rt, words, status, printed);
    Ok(says && outside.holds(out, text, faults))
}

#[test]
fn answers_each_fault_of_the_sink(rt: HostRuntime) -> Result<(), Fail> {
    let text = CUBE_TEXT.as_bytes();
    let mut right = true;
    for &(words, write, answer, is_made) in &FAULTS_OF_THE_SINK {
        let out = if is_made {
            Some(CUBE_FILE.as_slice())
        } else {
            None
        };
        right &= prints_at(&rt, words, text, write, answer, out)?;
    }
    assert!(rt; right);
    Ok(())
}
