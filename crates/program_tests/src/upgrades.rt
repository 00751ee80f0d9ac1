//! What becomes of an upgrade where the folder or the standard output fails.

use super::cube_file::{first_cube_file, small_cube_file};
use super::listings::{UNREAD, UNWRITTEN};
use super::outside::{Answer, Outside};
use std::alloc::AllocError;
use std::test::Fail;
use std::thread::Threads;

/// The call of the shelf and the write of the sink that fail, what is answered, and how many bytes `out` then has, if it is
/// there. The calls are two reads, the creation of `out` and the addition of its bytes.
static FAULTS: [(u64, u64, Answer, Option<usize>); 6] = [
    (0, 9, UNREAD, None),
    (1, 9, UNREAD, None),
    (2, 9, UNWRITTEN, None),
    (3, 9, UNWRITTEN, Some(0)),
    (4, 0, (6, "", [0, 0, 1]), Some(330)),
    (4, 9, (0, FIRST_TO_SECOND, [0, 0, 0]), Some(330)),
];

const FIRST_TO_SECOND: &str = "version 1 to 2\n";

/// Whether upgrading the cube's first version gives this answer where these fail.
fn fails_so<R: AllocGlobal + Threads + Sync>(
    rt: &R,
    call: u64,
    write: u64,
    answer: Answer,
    length: Option<usize>,
) -> Result<bool, AllocError> {
    let (status, printed, faults) = answer;
    let file = first_cube_file(rt.alloc())?;
    let mut outside = Outside::new(rt.alloc(), &file)?;
    outside.shelf.fail_call(call)?;
    outside.sink.fail_call(write)?;
    let says = outside.says(rt, &["upgrade", "map", "out"], status, printed);
    let upgraded = small_cube_file(rt.alloc())?;
    let out = match length {
        Some(length) => upgraded.get(..length),
        None => None,
    };
    Ok(says && outside.holds(out, &file, faults))
}

#[test]
fn answers_each_fault_of_an_upgrade(rt: HostRuntime) -> Result<(), Fail> {
    let mut right = true;
    for &(call, write, answer, length) in &FAULTS {
        right &= fails_so(&rt, call, write, answer, length)?;
    }
    assert!(rt; right);
    Ok(())
}
