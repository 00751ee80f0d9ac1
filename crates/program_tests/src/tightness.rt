//! How much is seen in generated worlds, where rows are found in turns.

use super::outside::Outside;
use qm_compile::{OpenGate, exit_number, run};
use std::alloc::AllocError;
use std::test::Fail;
use std::thread::Threads;
use test_numbers::Random;
use test_worlds::maze;

/// How many pillars stand in each world.
const PILLARS: u64 = 6;

/// How many places are set in all rows of each world. That rows lack nothing in sight is proved; these numbers hold them
/// from above. They are what is found today, and smaller ones would be better: where rows come closer to what is in sight,
/// the table takes the new numbers. A larger one is a test of chains that has been lost.
static SEEN: [u64; 12] = [
    1560, 884, 1005, 823, 1332, 806, 823, 826, 826, 1823, 959, 777,
];

/// Whether a text compiles, and the last line of what is printed says that so much is seen.
fn sees<R: AllocGlobal + Threads + Sync>(
    rt: &R,
    text: &str,
    seen: u64,
) -> Result<bool, AllocError> {
    let line = format!(in rt.alloc(); "\nseen {seen}\n")?;
    let mut outside = Outside::new(rt.alloc(), text.as_bytes())?;
    let words = ["compile", "map", "out"];
    let status = run(
        rt,
        rt.alloc(),
        &words,
        &mut outside.shelf,
        &mut outside.sink,
        &OpenGate,
    );
    Ok(exit_number(status) == 0 && outside.sink.bytes().ends_with(line.as_bytes()))
}

/// No more is seen in a dozen worlds than was.
#[test]
fn sees_no_more_in_turns(rt: HostRuntime) -> Result<(), Fail> {
    let mut random = Random::new(0x7167);
    let mut right = true;
    for seen in &SEEN {
        let text = maze(rt.alloc(), &mut random, PILLARS)?;
        right &= sees(&rt, &text, *seen)?;
    }
    assert!(rt; right);
    Ok(())
}
