//! Segments through generated worlds, beside the rows of the files to which these compile.

use super::outside::Outside;
use qm_bits::BitRow;
use qm_compile::{OpenGate, exit_number, run};
use qm_file::{TreeFile, decode};
use std::alloc::{AllocError, Global};
use std::test::Fail;
use std::thread::Threads;
use test_numbers::Random;
use test_worlds::{Segment, maze, point, row_of};

/// How many segments are tried in each file.
const SAMPLES: u64 = 1000;

/// What samples have shown: how many segments were clear with ends in different leaves, and of how many of these a row of one
/// end lacked the other.
#[derive(Clone, Copy)]
struct Tally {
    apart: u64,
    unseen: u64,
}

const NO_SAMPLES: Tally = Tally {
    apart: 0,
    unseen: 0,
};

/// The words with which each world is compiled: for coarse rows, and for others.
static WORDS: [&[&str]; 2] = [
    &["compile", "map", "out", "--fast"],
    &["compile", "map", "out"],
];

/// The file of a text, with coarse rows or with others; `None` where it is not made.
fn file_of<R: AllocGlobal + Threads + Sync>(
    rt: &R,
    text: &[u8],
    words: &[&str],
) -> Result<Option<TreeFile>, AllocError> {
    let mut outside = Outside::new(rt.alloc(), text)?;
    let status = run(
        rt,
        rt.alloc(),
        words,
        &mut outside.shelf,
        &mut outside.sink,
        &OpenGate,
    );
    let Some(bytes) = outside.shelf.get("out") else {
        return Ok(None);
    };
    if exit_number(status) != 0 {
        return Ok(None);
    }
    Ok(decode(rt.alloc(), bytes).ok())
}

fn has(rows: &[BitRow], row: u64, place: u64) -> bool {
    rows.get(row as usize)
        .is_some_and(|row| place < row.len() && row.get(place))
}

/// What samples of a file show.
fn sample(alloc: Global, file: &TreeFile, random: &mut Random) -> Result<Tally, AllocError> {
    let mut tally = NO_SAMPLES;
    let Some(rows) = &file.rows else {
        return Ok(tally);
    };
    for _ in 0..SAMPLES {
        let segment = Segment::new(alloc, &file.tree, point(random), point(random))?;
        let Some(leaves) = segment.clear_leaves(alloc, &file.tree)? else {
            continue;
        };
        let (Some(&first), Some(&last)) = (leaves.first(), leaves.last()) else {
            continue;
        };
        if first == last {
            continue;
        }
        let here = row_of(&file.tree, first);
        let there = row_of(&file.tree, last);
        tally.apart = tally.apart.saturating_add(1);
        if !has(rows.as_slice(), here, there) || !has(rows.as_slice(), there, here) {
            tally.unseen = tally.unseen.saturating_add(1);
        }
    }
    Ok(tally)
}

/// What samples of the files of a text show: the least of the segments that were clear and apart in one of them, and all that
/// lack an end in a row.
fn sample_both<R: AllocGlobal + Threads + Sync>(
    rt: &R,
    text: &[u8],
    random: &mut Random,
) -> Result<Tally, AllocError> {
    let mut both = Tally {
        apart: SAMPLES,
        unseen: 0,
    };
    for &words in &WORDS {
        let tally = match file_of(rt, text, words)? {
            Some(file) => sample(rt.alloc(), &file, random)?,
            None => NO_SAMPLES,
        };
        both.apart = both.apart.min(tally.apart);
        both.unseen = both.unseen.saturating_add(tally.unseen);
    }
    Ok(both)
}

/// The rows of the two ends of a clear segment have each other, coarse or not.
#[test]
fn rows_hold_the_ends_of_segments(rt: HostRuntime) -> Result<(), Fail> {
    let mut random = Random::new(0x5EED);
    let mut least = SAMPLES;
    let mut unseen = 0u64;
    for _ in 0..4 {
        let text = maze(rt.alloc(), &mut random, 4)?;
        let tally = sample_both(&rt, text.as_bytes(), &mut random)?;
        least = least.min(tally.apart);
        unseen = unseen.saturating_add(tally.unseen);
    }
    assert!(rt;
        unseen == 0 && least >= 100,
        "{unseen} rows lack an end; at least {least} of {SAMPLES} segments were clear and ended in different leaves"
    );
    Ok(())
}
