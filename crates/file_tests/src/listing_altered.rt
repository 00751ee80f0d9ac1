//! Alterations of a listing, each with its fault and place.

use crate::listing_of_rooms::LISTING;
use qm_prt::{PrtFault, read};
use std::alloc::{AllocError, Global};

/// How many of the first bytes are kept, which of them is another, what stands behind them, and the fault.
static ALTERED: [(usize, usize, u8, &[u8], PrtFault); 12] = [
    (147, 0, b'Q', b"", PrtFault::Header { offset: 0 }),
    (147, 4, b' ', b"", PrtFault::Header { offset: 0 }),
    (147, 5, b'x', b"", PrtFault::Number { offset: 5 }),
    (147, 6, b' ', b"", PrtFault::Shape { offset: 6 }),
    // two corners, a leaf that is not there, the same leaf again, another bracket
    (147, 9, b'2', b"", PrtFault::Shape { offset: 9 }),
    (147, 11, b'3', b"", PrtFault::Shape { offset: 11 }),
    (147, 13, b'1', b"", PrtFault::Shape { offset: 13 }),
    (147, 15, b'[', b"", PrtFault::Shape { offset: 15 }),
    // a sign in a count, and one inside a number
    (147, 10, b'-', b"", PrtFault::Number { offset: 9 }),
    (147, 18, b'-', b"", PrtFault::Number { offset: 16 }),
    (146, 0, b'P', b"", PrtFault::Shape { offset: 146 }),
    (147, 0, b'P', b"\n", PrtFault::Trailing { offset: 147 }),
];

/// The listing with these alterations.
fn altered_text(
    alloc: Global,
    kept: usize,
    at: usize,
    byte: u8,
    more: &[u8],
) -> Result<Vec<u8>, AllocError> {
    let mut text = LISTING.to_vec(alloc)?;
    if let Some(other) = text.get_mut(at) {
        *other = byte;
    }
    text.truncate(kept);
    text.extend_from_slice(more)?;
    Ok(text)
}

/// Whether each alteration has its fault.
fn have_faults(alloc: Global) -> Result<bool, AllocError> {
    let mut right = true;
    for &(kept, at, byte, more, fault) in &ALTERED {
        let text = altered_text(alloc, kept, at, byte, more)?;
        right &= read(alloc, &text).err() == Some(fault);
    }
    Ok(right)
}

/// Whether no text is read that ends before the listing does.
fn no_prefix_is_read(alloc: Global) -> bool {
    let mut none = true;
    for end in 0..LISTING.len() {
        none &= match read(alloc, &LISTING[..end]) {
            Ok(_) => false,
            Err(PrtFault::Memory) => false,
            Err(_) => true,
        };
    }
    none
}

/// A coordinate in the place of the first one, and its millionths where it is read.
static COORDINATES: [(&[u8], Option<(i64, bool)>); 16] = [
    (b"5", Some((5_000_000, true))),
    (b"5.000000", Some((5_000_000, false))),
    (b"-0.000001", Some((-1, false))),
    (b"0.000000", Some((0, false))),
    (b"32768", Some((32_768_000_000, true))),
    (b"-32768.000000", Some((-32_768_000_000, false))),
    (b"32769", None),
    (b"32768.000001", None),
    (b"-0", None),
    (b"-0.000000", None),
    (b"05", None),
    (b"5.00000", None),
    (b"5.0000000", None),
    (b".500000", None),
    (b"5.", None),
    (b"10000000000000000000000000000000000000000", None),
];

fn with_coordinate(alloc: Global, word: &[u8]) -> Result<Vec<u8>, AllocError> {
    let mut text = Vec::from_slice(alloc, &LISTING[..16])?;
    text.extend_from_slice(word)?;
    text.extend_from_slice(&LISTING[21..])?;
    Ok(text)
}

fn is_read_so(alloc: Global, word: &[u8], expected: Option<(i64, bool)>) -> Option<bool> {
    let text = with_coordinate(alloc, word).ok()?;
    match (read(alloc, &text), expected) {
        (Ok(listing), Some((millionths, whole))) => {
            let portal = listing.portals.as_slice().first()?;
            let [x, _, _] = portal.corners.as_slice().first()?;
            Some(x.millionths == millionths && x.whole == whole)
        }
        (Err(fault), None) => Some(fault == PrtFault::Number { offset: 16 }),
        _ => None,
    }
}

#[test]
fn faults_of_altered_listings(rt: HostRuntime) {
    let alloc = rt.alloc();
    assert!(rt;
        no_prefix_is_read(alloc)
            && have_faults(alloc) == Ok(true)
            && COORDINATES.iter().all(|(word, expected)| is_read_so(alloc, word, *expected)
                == Some(true))
    );
}
