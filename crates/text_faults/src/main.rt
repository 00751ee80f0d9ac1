//! Reads MAP texts whole and in pieces, and says what they mean: `text_faults FILE`, where a byte 0 stands between two texts, a
//! line each. `.ci/compare_texts.py` compares the lines with those of a plain slow reader.
#![tactic(auto)]

ghost use Rattle.std.specs.Prelude.{◌<◌, IfOk};
ghost use Rattle.qm_grammar.specs.Valid.{IsValidMap};

use qm_grammar::MapFault;
use qm_map::parse;
use qm_mapfile::MapFile;
use qm_mapout::print;
use qm_pieces::MapReader;
use qm_shelf::{FolderShelf, read_whole};
use std::alloc::{AllocError, Global};
use std::rt::Files;
use std::{env, io};

/// More bytes than a file may have that is read.
const MOST_BYTES: usize = (1 << 30) + 1;

/// How many bytes the pieces of a text have: always as many, or some by chance.
#[derive(Clone, Copy)]
enum Sizes {
    Each(usize),
    ByChance(u64),
}

impl Sizes {
    /// The size of the next piece.
    fn next(&mut self) -> usize
        ensures { 0 < result }
    {
        match self {
            Sizes::Each(size) => (*size).max(1),
            Sizes::ByChance(state) => {
                *state = state
                    .wrapping_mul(6_364_136_223_846_793_005)
                    .wrapping_add(1_442_695_040_888_963_407);
                1 + (*state >> 33) as usize % 40
            }
        }
    }
}

/// What is told of the meaning of a text: a map's canonical text with the number of its entities and of their brushes, or a
/// fault.
#[derive(Drop)]
struct Told {
    text: Vec<u8>,
    entities: usize,
    brushes: usize,
    fault: Option<MapFault>,
}

fn main(rt: HostRuntime) -> io::Result<()> {
    let mut words = env::args(&rt)?.skip(1);
    match words.next() {
        Some(name) => say_file(&rt, name.as_str()),
        None => println!(rt; "usage: text_faults FILE"),
    }
}

/// Says what the texts of a file mean.
fn say_file<R: AllocGlobal + Files + Print>(rt: &R, name: &str) -> io::Result<()> {
    let mut folder = FolderShelf::over(rt);
    let Ok(bytes) = read_whole(rt.alloc(), &mut folder, name, MOST_BYTES) else {
        return println!(rt; "not read");
    };
    for text in bytes.split(|byte| *byte == 0) {
        say(rt, text)?;
    }
    Ok(())
}

/// Says what a text means, unless it means something else in pieces.
fn say<R: AllocGlobal + Print>(rt: &R, text: &[u8]) -> io::Result<()> {
    let told = tell(rt.alloc(), parse(rt.alloc(), text))?;
    if !is_told_of_pieces(rt.alloc(), text, &told)? {
        return println!(rt; "something else in pieces");
    }
    match told.fault {
        Some(fault) => println!(rt; "{fault:?}"),
        None => {
            let entities = told.entities;
            let brushes = told.brushes;
            println!(rt; "entities {entities}, brushes {brushes}")
        }
    }
}

/// Whether the same is told of a text in pieces of each size, and of some sizes by chance.
fn is_told_of_pieces(alloc: Global, text: &[u8], whole: &Told) -> Result<bool, AllocError> {
    let mut same = true;
    for sizes in [
        Sizes::Each(1),
        Sizes::Each(2),
        Sizes::Each(3),
        Sizes::Each(7),
        Sizes::ByChance(text.len() as u64),
    ] {
        let told = tell(alloc, meaning_in_pieces(alloc, text, sizes))?;
        same &= told.fault == whole.fault && told.text.as_slice() == whole.text.as_slice();
    }
    Ok(same)
}

/// What is told of a meaning.
fn tell(alloc: Global, meaning: Result<MapFile, MapFault>) -> Result<Told, AllocError>
    requires { IfOk meaning IsValidMap }
{
    let mut told = Told {
        text: Vec::new(alloc),
        entities: 0,
        brushes: 0,
        fault: None,
    };
    match meaning {
        Ok(map) => {
            print(alloc, &map, &mut told.text)?;
            told.entities = map.entities.len();
            told.brushes = brush_count(&map);
        }
        Err(fault) => told.fault = Some(fault),
    }
    Ok(told)
}

/// How many brushes all entities have.
fn brush_count(map: &MapFile) -> usize {
    let mut count = 0usize;
    for entity in map.entities.as_slice() {
        count = count.saturating_add(entity.brushes.len());
    }
    count
}

/// What a text means that comes in pieces of these sizes.
fn meaning_in_pieces(alloc: Global, text: &[u8], sizes: Sizes) -> Result<MapFile, MapFault>
    ensures { IfOk result IsValidMap }
{
    let mut sizes = sizes;
    let mut reader = MapReader::new(alloc);
    let mut fed = 0;
    while fed < text.len() {
        let end = fed + sizes.next().min(text.len() - fed);
        match reader.feed(&text[fed..end]) {
            Ok(()) => fed = end,
            Err(fault) => return Err(fault),
        }
    }
    reader.finish()
}
