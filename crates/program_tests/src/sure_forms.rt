use super::empty_file::{EMPTY_FILE, EMPTY_SUMMARY};
use super::printed::{COUNTS, ONE_ROOM, UNEXPECTED};
use qm_compile::laws::run_surely;
use qm_compile::{OpenGate, exit_number};
use qm_shelf::{SureShelf, SureSink};
use std::test::Fail;
use std::thread::Threads;

/// What `out` holds afterwards.
#[derive(Clone, Copy)]
enum Written {
    /// The canonical text of an empty entity.
    Text,
    /// The tree of a world without brushes.
    Tree,
}

static ROWS: [(&[&str], u8, &str, Written); 10] = [
    (&["format", "empty", "out"], 0, COUNTS, Written::Text),
    (&["compile", "open", "out"], 4, UNEXPECTED, Written::Text),
    (
        &["compile", "empty", "out"],
        0,
        EMPTY_SUMMARY,
        Written::Tree,
    ),
    (
        &["compile", "absent", "out"],
        4,
        "map fault 11 at line 1: no entity\n",
        Written::Tree,
    ),
    (
        &["inspect", "absent", "count"],
        8,
        "tree fault 1 at byte 0: short\n",
        Written::Tree,
    ),
    (
        &["inspect", "out", "count", "row=0"],
        0,
        "planes 0 nodes 0 leaves 1 numbered 1 rows yes\nrow 0: 0\n",
        Written::Tree,
    ),
    (
        &["inspect", "out", "sees=0,1"],
        9,
        "query 1 refused: no such leaf\n",
        Written::Tree,
    ),
    (
        &["upgrade", "out", "newer"],
        0,
        "version 2 to 2\n",
        Written::Tree,
    ),
    (
        &["upgrade", "absent", "out"],
        8,
        "tree fault 1 at byte 0: short\n",
        Written::Tree,
    ),
    (&["demo", "1", "0"], 0, ONE_ROOM, Written::Tree),
];

/// Whether a run on these words ends so and prints this.
fn says<R: AllocGlobal + Threads + Sync>(
    rt: &R,
    shelf: &mut SureShelf,
    words: &[&str],
    status: u8,
    printed: &str,
) -> bool {
    let mut sink = SureSink::new(rt.alloc());
    let answer = run_surely(rt, rt.alloc(), words, shelf, &mut sink, &OpenGate);
    exit_number(answer) == status && sink.bytes() == printed.as_bytes()
}

/// Whether `out` holds this.
fn has_written(shelf: &SureShelf, what: Written) -> bool {
    let bytes = match what {
        Written::Text => b"{\n}\n".as_slice(),
        Written::Tree => EMPTY_FILE.as_slice(),
    };
    shelf.get("out") == Some(bytes)
}

/// Over forms that never fail, what comes of a text is due to the text alone; a name that is not held reads
/// as an empty text.
#[test]
fn runs_over_forms_that_never_fail(rt: HostRuntime) -> Result<(), Fail> {
    let mut shelf = SureShelf::new(rt.alloc());
    shelf.put("empty", b"{ }")?;
    shelf.put("open", b"{ { x")?;
    let mut right = true;
    for &(words, status, printed, out) in &ROWS {
        right &= says(&rt, &mut shelf, words, status, printed);
        right &= has_written(&shelf, out);
    }
    assert!(rt; right);
    Ok(())
}
