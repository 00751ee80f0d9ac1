//! Goes the way of `qmapc compile` up to a named phase, and prints counts of what is there then, so that phases are timed
//! as differences. `bench/compile.sh` times it.
//!
//! The words are a phase (`read`, `parse`, `brushes`, `build`, `halves`, `touches`, `flood`, `world`, `base` or `rows`) and the
//! name of a map. `halves` is `build`, with both halves of large cells beside one another.
#![tactic(auto)]

mod rows;

ghost use Rattle.std.specs.Prelude.{IfOk};
ghost use Rattle.qm_grammar.specs.Valid.{IsValidMap};
ghost use Rattle.qm_solids.specs.InBook.{IsBookOf};
ghost use Rattle.qm_partition.specs.Ways.{HasPoints};
ghost use Rattle.qm_contacts.specs.Contacts.{AreContacts};

use crate::rows::rows_up_to;
use qm_brush::{BrushList, brushes};
use qm_build::{OpenHalves, build, build_halves};
use qm_flood::{Flood, Origin, flood};
use qm_geom::{PlaneBook, Point};
use qm_grammar::TEXT_LIMIT;
use qm_map::parse;
use qm_mapfile::MapFile;
use qm_portal::{TouchList, touches};
use qm_shelf::{FolderShelf, read_whole};
use qm_tree::Tree;
use std::alloc::{AllocError, Global};
use std::rt::Files;
use std::thread::Threads;
use std::{env, io};

fn main(rt: HostRuntime) -> io::Result<()> {
    let mut words = env::args(&rt)?.skip(1);
    match (words.next(), words.next()) {
        (Some(phase), Some(name)) => run_up_to(&rt, phase.as_str(), name.as_str()),
        _ => println!(rt;
            "usage: compile_bench read|parse|brushes|build|halves|touches|flood|world|base|rows MAP"
        ),
    }
}

/// Reads a map, and goes on to a phase.
fn run_up_to<R: AllocGlobal + Files + Print + Threads + Sync>(
    rt: &R,
    phase: &str,
    name: &str,
) -> io::Result<()> {
    let mut folder = FolderShelf::over(rt);
    let Ok(text) = read_whole(rt.alloc(), &mut folder, name, TEXT_LIMIT) else {
        return println!(rt; "not read");
    };
    if phase == "read" {
        return println!(rt; "bytes {}", text.len());
    }
    let parsed = parse(rt.alloc(), &text);
    drop(text);
    match parsed {
        Ok(map) => go_on(rt, phase, &map),
        Err(_) => println!(rt; "no map"),
    }
}

/// Goes on with a map to a phase.
fn go_on<R: AllocGlobal + Print + Threads + Sync>(
    rt: &R,
    phase: &str,
    map: &MapFile,
) -> io::Result<()>
    requires valid { IsValidMap map.now }
{
    if phase == "parse" {
        return println!(rt; "entities {}", map.entities.len());
    }
    let mut book = PlaneBook::new(rt.alloc());
    let list = brushes(rt.alloc(), map, &mut book)?;
    let brushes = list.len();
    let planes = book.len();
    if phase == "brushes" {
        return println!(rt; "brushes {brushes}, planes {planes}");
    }
    let tree = tree_of(rt, phase, &list, &book)?;
    let nodes = tree.nodes();
    let leaves = tree.leaves();
    if phase == "touches" || phase == "flood" {
        let contacts = touches(rt.alloc(), &tree)?;
        if phase == "flood" {
            let verdict = verdict_of(&flood_of(rt.alloc(), &contacts, &tree)?);
            return println!(rt; "nodes {nodes}, leaves {leaves}, {verdict}");
        }
        return println!(rt; "nodes {nodes}, leaves {}", contacts.leaves());
    }
    if phase == "build" || phase == "halves" {
        return println!(rt; "brushes {brushes}, planes {planes}, nodes {nodes}, leaves {leaves}");
    }
    drop(list);
    rows_up_to(rt, phase, map, tree)
}

/// The tree of brushes, built as the phase says.
fn tree_of<R: AllocGlobal + Threads + Sync>(
    rt: &R,
    phase: &str,
    list: &BrushList,
    book: &PlaneBook,
) -> Result<Tree, AllocError>
    requires filled { IsBookOf book.now list.now }
    ensures { IfOk result HasPoints }
{
    if phase == "halves" {
        build_halves(rt, rt.alloc(), list, book, &OpenHalves)
    } else {
        build(rt.alloc(), list, book)
    }
}

/// The flood for an entity that stands outside, in a corner of the cube.
fn flood_of(alloc: Global, contacts: &TouchList, tree: &Tree) -> Result<Flood, AllocError>
    requires { AreContacts tree.now contacts.now }
{
    let point = Point {
        x: 4095,
        y: 4095,
        z: 4095,
        w: 1,
    };
    flood(alloc, contacts, tree, &[Origin { entity: 1, point }])
}

/// What a flood found, in a word.
fn verdict_of(flood: &Flood) -> &'static str {
    match flood {
        Flood::Sealed(_) => "sealed",
        Flood::NoEntity => "no entity",
        Flood::Leak { .. } => "leak",
    }
}
