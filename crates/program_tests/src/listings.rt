//! Listings that are written beside a tree.

use self::Held::{Empty, Nothing, Whole};
use super::cube::CUBE_TEXT;
use super::cube_file::CUBE_FILE;
use super::cube_listing::CUBE_LISTING;
use super::outside::{Answer, Outside};
use super::printed::{READ_FAULT, SUMMARY, WRITE_FAULT};
use std::alloc::AllocError;
use std::test::Fail;
use std::thread::Threads;

/// What a file holds.
#[derive(Clone, Copy)]
enum Held {
    Nothing,
    Empty,
    Whole,
}

/// Whether a file holds this, of these bytes.
fn has(file: Option<&[u8]>, held: Held, whole: &[u8]) -> bool {
    match held {
        Nothing => file.is_none(),
        Empty => file.is_some_and(|bytes| bytes.is_empty()),
        Whole => file == Some(whole),
    }
}

/// What fails: a call of the shelf by its number, of which there are six, and a write of the sink.
#[derive(Clone, Copy)]
struct Failing {
    call: u64,
    write: u64,
}

/// A read failed.
pub const UNREAD: Answer = (5, READ_FAULT, [1, 0, 0]);

/// A write failed.
pub const UNWRITTEN: Answer = (6, WRITE_FAULT, [0, 1, 0]);

/// The call and the write that fail, what is answered, and what `out` and `list` then hold. The calls are two reads, the creation
/// of `out` and the addition of its bytes, and the same of `list`.
static FAULTS: [(u64, u64, Answer, Held, Held); 8] = [
    (0, 9, UNREAD, Nothing, Nothing),
    (1, 9, UNREAD, Nothing, Nothing),
    (2, 9, UNWRITTEN, Nothing, Nothing),
    (3, 9, UNWRITTEN, Empty, Nothing),
    (4, 9, UNWRITTEN, Whole, Nothing),
    (5, 9, UNWRITTEN, Whole, Empty),
    (6, 0, (6, "", [0, 0, 1]), Whole, Whole),
    (6, 9, (0, SUMMARY, [0, 0, 0]), Whole, Whole),
];

/// Whether a run that lists the cube gives this answer where this fails, calls the shelf no more, and the files then hold this.
fn fails_so<R: AllocGlobal + Threads + Sync>(
    rt: &R,
    failing: Failing,
    answer: Answer,
    out: Held,
    list: Held,
) -> Result<bool, AllocError> {
    let (status, printed, faults) = answer;
    let text = CUBE_TEXT.as_bytes();
    let mut outside = Outside::new(rt.alloc(), text)?;
    outside.shelf.fail_call(failing.call)?;
    outside.sink.fail_call(failing.write)?;
    let words = ["compile", "map", "out", "--prt", "list"];
    let says = outside.says(rt, &words, status, printed);
    let found = outside.shelf.get("out");
    Ok(
        says && outside.shelf.calls() == failing.call.min(5) + 1
            && outside.holds(found, text, faults)
            && has(found, out, &CUBE_FILE)
            && has(outside.shelf.get("list"), list, CUBE_LISTING.as_bytes()),
    )
}

#[test]
fn answers_each_fault_beside_a_listing(rt: HostRuntime) -> Result<(), Fail> {
    let mut right = true;
    for &(call, write, answer, out, list) in &FAULTS {
        right &= fails_so(&rt, Failing { call, write }, answer, out, list)?;
    }
    assert!(rt; right);
    Ok(())
}
