//! The files of worlds of one leaf in both versions, written out, and what becomes of them where they are upgraded.

use qm_bits::BitRow;
use qm_contents::Contents::{self, Empty, Solid};
use qm_file::{Section, TreeFile, decode, encode, plain_file, upgrade};
use qm_lists::Items;
use qm_tree::{Leaf, Tree};
use std::alloc::{AllocError, Global};

/// One leaf, filled or not, and whether rows are there; sections, in version 2 alone; and the bytes behind the magic bytes
/// and two counts of 0.
#[derive(Clone, Copy)]
struct Small {
    version: u8,
    bound: u32,
    contents: Contents,
    filled: bool,
    has_rows: bool,
    sections: &'static [(u32, &'static [u8])],
    bytes: &'static [u8],
}

/// A world without brushes: one leaf, one numbered, rows, the bound 4096 and no sections.
const EMPTY: Small = Small {
    version: 2,
    bound: 4096,
    contents: Empty,
    filled: false,
    has_rows: true,
    sections: &[],
    bytes: &[],
};

static SMALL: [Small; 4] = [
    // in a large world, with three sections
    Small {
        bound: 32_768,
        sections: &[(1, &[9, 0, 0]), (7, &[]), (0xffff_ffff, &[1])],
        bytes: &[
            1, 0, 0, 0, 0, 0, 0, 0, 1, 0, 0, 0, 0, 0, 0, 0, 1, 0, 128, 0, 0, 3, 0, 0, 0, 255, 255,
            255, 255, 0, 1, 1, 0, 0, 0, 3, 0, 0, 0, 0, 0, 0, 0, 9, 0, 0, 7, 0, 0, 0, 0, 0, 0, 0, 0,
            0, 0, 0, 255, 255, 255, 255, 1, 0, 0, 0, 0, 0, 0, 0, 1,
        ],
        ..EMPTY
    },
    // a plain file
    Small {
        has_rows: false,
        bytes: &[
            1, 0, 0, 0, 0, 0, 0, 0, 1, 0, 0, 0, 0, 0, 0, 0, 0, 0, 16, 0, 0, 0, 0, 0, 0, 255, 255,
            255, 255, 0,
        ],
        ..EMPTY
    },
    // version 1
    Small {
        version: 1,
        bytes: &[
            1, 0, 0, 0, 0, 0, 0, 0, 1, 0, 0, 0, 0, 0, 0, 0, 1, 255, 255, 255, 255, 0, 1,
        ],
        ..EMPTY
    },
    // a world that is solid everywhere: rows are there, and none is written
    Small {
        version: 1,
        contents: Solid,
        filled: true,
        bytes: &[
            1, 0, 0, 0, 0, 0, 0, 0, 0, 0, 0, 0, 0, 0, 0, 0, 1, 254, 255, 255, 255, 1,
        ],
        ..EMPTY
    },
];

/// Sections of these kinds, with these bytes.
fn sections(alloc: Global, parts: &[(u32, &[u8])]) -> Result<Items<Section>, AllocError> {
    let mut sections = Vec::new(alloc);
    for (kind, bytes) in parts {
        let bytes = Items::from_vec(Vec::from_slice(alloc, bytes)?);
        sections.push(Section { kind: *kind, bytes })?;
    }
    Ok(Items::from_vec(sections))
}

fn file(alloc: Global, sample: &Small) -> Option<TreeFile> {
    let leaf = Leaf {
        contents: sample.contents,
        filled: sample.filled,
    };
    let leaves = [leaf].to_vec(alloc).ok()?;
    let tree = Tree::of(alloc, Vec::new(alloc), Vec::new(alloc), leaves).ok()?;
    let mut rows = Vec::new(alloc);
    if sample.contents != Solid {
        let mut row = BitRow::with_len(alloc, 1).ok()?;
        if row.len() > 0 {
            row.set(0);
        }
        rows.push(row).ok()?;
    }
    let rows = if sample.has_rows {
        Some(Items::from_vec(rows))
    } else {
        None
    };
    Some(TreeFile {
        version: sample.version,
        bound: sample.bound,
        tree,
        rows,
        sections: sections(alloc, sample.sections).ok()?,
    })
}

/// The bytes of a sample.
fn bytes_of(alloc: Global, sample: &Small) -> Result<Vec<u8>, AllocError> {
    let mut bytes = b"QMTREE0".to_vec(alloc)?;
    bytes.push(if sample.version == 1 { b'1' } else { b'2' })?;
    bytes.extend_from_slice(&[0; 16])?;
    bytes.extend_from_slice(sample.bytes)?;
    Ok(bytes)
}

/// Those of the same file in version 2, which are eight more for one of version 1.
fn newest_bytes(alloc: Global, sample: &Small) -> Result<Vec<u8>, AllocError> {
    if sample.version == 2 || sample.bytes.len() < 17 {
        return bytes_of(alloc, sample);
    }
    let (header, parts) = sample.bytes.split_at(17);
    let mut bytes = b"QMTREE02".to_vec(alloc)?;
    bytes.extend_from_slice(&[0; 16])?;
    bytes.extend_from_slice(header)?;
    bytes.extend_from_slice(&[0, 16, 0, 0, 0, 0, 0, 0])?;
    bytes.extend_from_slice(parts)?;
    Ok(bytes)
}

/// Whether sections are these.
fn are_sections(found: &[Section], expected: &[(u32, &[u8])]) -> bool {
    found.len() == expected.len()
        && found.iter().zip(expected).all(|(section, (kind, bytes))| {
            section.kind == *kind && section.bytes.as_slice() == *bytes
        })
}

/// Whether a file is written so, and read again as one that says so and is written so; and the same file in version 2 as that should be.
fn is_written(alloc: Global, sample: &Small) -> Option<bool> {
    let expected = bytes_of(alloc, sample).ok()?;
    let written = encode(alloc, &file(alloc, sample)?).ok()?;
    let again = decode(alloc, &written).ok()?;
    let same = again.version == sample.version && again.bound == sample.bound;
    let same = same && are_sections(again.sections.as_slice(), sample.sections);
    let as_before = encode(alloc, &again).ok()?;
    let newest = encode(alloc, &upgrade(again)).ok()?;
    Some(
        same && written.as_slice() == expected.as_slice()
            && as_before.as_slice() == expected.as_slice()
            && newest.as_slice() == newest_bytes(alloc, sample).ok()?.as_slice(),
    )
}

/// Whether a file of version 2 without rows and sections is read as a plain one with its bound, and with no other.
fn is_plain(alloc: Global, sample: &Small) -> Option<bool> {
    let bytes = bytes_of(alloc, sample).ok()?;
    let wanted = sample.version == 2 && !sample.has_rows && sample.sections.is_empty();
    let same = match plain_file(alloc, &bytes, 4096).ok()? {
        Some(file) => encode(alloc, &file).ok()?.as_slice() == bytes.as_slice(),
        None => false,
    };
    Some(same == wanted && plain_file(alloc, &bytes, 32_768).ok()?.is_none())
}

#[test]
fn files_of_one_leaf(rt: HostRuntime) {
    let alloc = rt.alloc();
    assert!(rt;
        SMALL.iter().all(|sample| is_written(alloc, sample) == Some(true)
            && is_plain(alloc, sample) == Some(true))
    );
}
