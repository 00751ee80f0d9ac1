//! Rows in runs, both ways, and bytes that spell no row.

use qm_runs::{RunFault, decode, encode};
use std::alloc::{AllocError, Global};

/// Rows, by how often each byte comes, and how they are spelled.
static SPELT: [(&[(usize, u8)], &[u8]); 6] = [
    (&[], &[]),
    (&[(300, 0), (1, 5)], &[0, 255, 0, 45, 5]),
    (&[(1, 1), (2, 0), (1, 128)], &[1, 0, 2, 128]),
    (&[(255, 0)], &[0, 255]),
    (&[(256, 0), (1, 255)], &[0, 255, 0, 1, 255]),
    (
        &[(1, 0), (1, 7), (1, 0), (2, 7), (3, 0)],
        &[0, 1, 7, 0, 1, 7, 7, 0, 3],
    ),
];

/// Bytes that do not begin with a row of a width.
static REFUSED: [(&[u8], usize, RunFault); 9] = [
    (&[0, 0], 4, RunFault::ZeroCount),
    (&[0, 2, 0, 2], 4, RunFault::SplitRun),
    (&[0, 2, 0], 4, RunFault::SplitRun),
    (&[0, 5], 4, RunFault::Overrun),
    (&[0], 4, RunFault::Short),
    (&[9, 0, 2], 4, RunFault::Short),
    (&[], 1, RunFault::Short),
    (&[0, 255, 0, 0], 300, RunFault::ZeroCount),
    (&[0, 255, 0, 2], 256, RunFault::Overrun),
];

/// Adds a byte so many times.
fn put_run(bytes: &mut Vec<u8>, count: usize, byte: u8) -> Result<(), AllocError> {
    for _ in 0..count {
        bytes.push(byte)?;
    }
    Ok(())
}

/// The bytes of a row, of which it says how often each comes.
fn bytes_of(alloc: Global, row: &[(usize, u8)]) -> Result<Vec<u8>, AllocError> {
    let mut bytes = Vec::new(alloc);
    for (count, byte) in row {
        put_run(&mut bytes, *count, *byte)?;
    }
    Ok(bytes)
}

/// Whether the row is written so behind what was there, and read again with other bytes behind it.
fn is_spelt(alloc: Global, runs: &[(usize, u8)], spelling: &[u8]) -> Option<bool> {
    let row = bytes_of(alloc, runs).ok()?;
    let mut out = [3_u8].to_vec(alloc).ok()?;
    encode(&row, &mut out).ok()?;
    let written = out.split_first()?.1 == spelling;
    out.push(0).ok()?;
    let (read, used) = decode(alloc, out.split_first()?.1, row.len()).ok()?;
    Some(written && read.as_slice() == row.as_slice() && used == spelling.len())
}

#[test]
fn rows_in_runs(rt: HostRuntime) {
    let alloc = rt.alloc();
    assert!(rt;
        SPELT.iter().all(|(runs, spelling)| is_spelt(alloc, runs, spelling) == Some(true))
            && REFUSED.iter().all(|(bytes, width, fault)| decode(alloc, bytes, *width).err()
                == Some(*fault))
    );
}
