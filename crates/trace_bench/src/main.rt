//! Traces segments between made points through a tree, and prints how many spans they have. `bench/traces.sh` times it.
//!
//! The words are the name of a tree file, how many segments are traced, and how far from the middle their ends lie at most, in
//! map units.
#![tactic(auto)]

mod ends;

ghost use Rattle.qm_spans.specs.SegmentTrace.{FitsTraces};

use ends::Ends;
use qm_file::decode;
use qm_shelf::{FolderShelf, read_whole};
use qm_space::WORLD_EXTENT;
use qm_trace::Tracer;
use qm_tree::Tree;
use std::{env, io};

/// How many bytes of a tree file are read.
const FILE_LIMIT: usize = 1 << 30;

fn main(rt: HostRuntime) -> io::Result<()> {
    let mut words = env::args(&rt)?.skip(1);
    let Some(name) = words.next() else {
        return println!(rt; "usage: trace_bench TREE SEGMENTS REACH");
    };
    let segments = words
        .next()
        .and_then(|word| word.as_str().parse::<u32>().ok())
        .unwrap_or(1);
    let reach = words
        .next()
        .and_then(|word| word.as_str().parse::<u16>().ok())
        .unwrap_or(4095);
    let mut folder = FolderShelf::over(&rt);
    let Ok(bytes) = read_whole(rt.alloc(), &mut folder, name.as_str(), FILE_LIMIT) else {
        return println!(rt; "not read");
    };
    let Ok(file) = decode(rt.alloc(), &bytes) else {
        return println!(rt; "no tree file");
    };
    if !Tracer::fits(&file.tree) {
        return println!(rt; "plane too wide");
    }
    let spans = spans_of(&file.tree, segments, reach);
    println!(rt;
        "nodes {}, segments {segments}, spans {spans}",
        file.tree.nodes()
    )
}

/// How many spans so many segments have.
fn spans_of(tree: &Tree, segments: u32, reach: u16) -> u64
    requires { FitsTraces tree.now }
{
    let mut ends = Ends::new(reach);
    let mut spans: u64 = 0;
    for _ in 0..segments {
        let from = ends.next();
        let to = ends.next();
        if let Ok(tracer) = Tracer::over(tree, WORLD_EXTENT as u32, from, to) {
            spans = spans.wrapping_add(count(tracer));
        }
    }
    spans
}

/// How many spans are still to come.
fn count(mut tracer: Tracer) -> u64 {
    let mut spans: u64 = 0;
    while let Some(_) = tracer.next() {
        spans = spans.wrapping_add(1);
    }
    spans
}
