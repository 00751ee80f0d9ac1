//! Reads tree files, and listings where the name of the file ends with `.prt`, and says of each what the reader answers:
//! `file_faults read FILE` of a file, and `file_faults N FILE` of the file altered in many ways from byte N on, a line each.
//! `.ci/compare_files.py` compares the lines with those of plain slow readers.
#![tactic(auto)]

ghost use Rattle.std.specs.Prelude.{◌<◌, length};

use qm_file::{TreeFile, decode, encode};
use qm_prt::read;
use qm_shelf::{FolderShelf, read_whole};
use std::rt::Files;
use std::{env, io};

/// More bytes than a file may have that is read.
const MOST_BYTES: usize = (1 << 30) + 1;

/// What a file is read as.
#[derive(Clone, Copy)]
enum Kind {
    Tree,
    Listing,
}

fn main(rt: HostRuntime) -> io::Result<()> {
    let mut words = env::args(&rt)?.skip(1);
    match (words.next(), words.next()) {
        (Some(word), Some(name)) => say_named(&rt, word.as_str(), name.as_str()),
        _ => println!(rt; "usage: file_faults read FILE, or file_faults N FILE"),
    }
}

/// Says what is read of a file, or of its alterations.
fn say_named<R: AllocGlobal + Files + Print>(rt: &R, word: &str, name: &str) -> io::Result<()> {
    let mut folder = FolderShelf::over(rt);
    let Ok(bytes) = read_whole(rt.alloc(), &mut folder, name, MOST_BYTES) else {
        return println!(rt; "not read");
    };
    let kind = if name.ends_with(".prt") {
        Kind::Listing
    } else {
        Kind::Tree
    };
    match word.parse::<usize>() {
        Ok(first) => say_alterations(rt, kind, first, &bytes),
        Err(_) => say(rt, kind, &bytes),
    }
}

/// Says what is read of bytes.
fn say<R: AllocGlobal + Print>(rt: &R, kind: Kind, bytes: &[u8]) -> io::Result<()> {
    match kind {
        Kind::Tree => match decode(rt.alloc(), bytes) {
            Ok(file) => say_file(rt, bytes, &file),
            Err(fault) => println!(rt; "{fault}"),
        },
        Kind::Listing => say_listing(rt, bytes),
    }
}

/// Says how many leaves and portals a listing has, or what is wrong in it.
fn say_listing<R: AllocGlobal + Print>(rt: &R, text: &[u8]) -> io::Result<()> {
    match read(rt.alloc(), text) {
        Ok(listing) => {
            let leaves = listing.leaves;
            let portals = listing.portals.len();
            println!(rt; "leaves {leaves}, portals {portals}")
        }
        Err(fault) => println!(rt; "{fault}"),
    }
}

/// Says of which version a file is, how far its world reaches, how many parts it has, and whether it is written as it was read.
fn say_file<R: AllocGlobal + Print>(rt: &R, bytes: &[u8], file: &TreeFile) -> io::Result<()> {
    let again = encode(rt.alloc(), file)?;
    let same = again.as_slice() == bytes;
    let version = file.version;
    let bound = file.bound;
    let planes = file.tree.planes();
    let nodes = file.tree.nodes();
    let leaves = file.tree.leaves();
    let rows = match &file.rows {
        Some(rows) => rows.len(),
        None => 0,
    };
    let sections = file.sections.len();
    println!(rt;
        "version {version}, bound {bound}, planes {planes}, nodes {nodes}, leaves {leaves}, rows {rows}, sections {sections}, same {same}"
    )
}

/// Says what is read of the first bytes alone, and of the bytes with one of them changed, left out or doubled.
fn say_alterations<R: AllocGlobal + Print>(
    rt: &R,
    kind: Kind,
    first: usize,
    bytes: &[u8],
) -> io::Result<()> {
    for at in first..bytes.len() {
        say(rt, kind, bytes.split_at(at).0)?;
        for mask in [1, 2, 4, 8, 16, 32, 64, 128, 255] {
            say_changed(rt, kind, bytes, at, mask)?;
        }
        say_around(rt, kind, bytes.split_at(at).0, bytes.split_at(at + 1).1)?;
        say_around(rt, kind, bytes.split_at(at + 1).0, bytes.split_at(at).1)?;
    }
    say(rt, kind, bytes)
}

/// Says what is read where some bits of one byte are changed.
fn say_changed<R: AllocGlobal + Print>(
    rt: &R,
    kind: Kind,
    bytes: &[u8],
    at: usize,
    mask: u8,
) -> io::Result<()>
    requires { at < length bytes.now }
{
    let mut changed = Vec::from_slice(rt.alloc(), bytes)?;
    changed[at] ^= mask;
    say(rt, kind, &changed)
}

/// Says what is read of two parts, one behind the other.
fn say_around<R: AllocGlobal + Print>(
    rt: &R,
    kind: Kind,
    front: &[u8],
    behind: &[u8],
) -> io::Result<()> {
    let mut bytes = Vec::from_slice(rt.alloc(), front)?;
    bytes.extend_from_slice(behind)?;
    say(rt, kind, &bytes)
}
