//! From a map to its tree with rows.

ghost use Rattle.std.specs.Prelude.{◌≡◌, ◌≤◌, IfOk};
ghost use Rattle.qm_grammar.specs.Valid.{IsValidMap};
ghost use Rattle.qm_compiler.specs.Answers.{IsCompiled};
ghost use Rattle.qm_compiler.specs.inner.Finished.{IsCounted};
ghost use Rattle.qm_compiler.specs.inner.KeptBrushes.{parts_with};

use crate::asking::{Asked, make_asked};
use crate::building::{Brushes, Built, build_map};
use crate::compiled::Compiled;
use crate::counting::count;
use crate::new_file::new_file;
use crate::preparing::{Prepared, prepare};
use qm_commands::Options;
use qm_crew::Gate;
use qm_mapfile::MapFile;
use qm_portal::{TouchList, World, touches};
use qm_sections::{SurfaceParts, sections};
use std::alloc::{AllocError, Global};
use std::thread::Threads;

/// Compiles a valid map. Where an entity leaks, the tree is as it was built, without rows; else leaves that no entity
/// reaches are filled, and each numbered leaf has a row. Rows are coarse where the options ask for it, and then no worker
/// starts; else as many workers as they ask for find those of portals, and pass by the gate where they are several. Where they
/// ask for several, halves of the tree are built beside one another too.
pub fn compile<R: Threads + Sync, G: Gate + Sync>(
    rt: &R,
    alloc: Global,
    map: &MapFile,
    options: &Options,
    gate: &G,
) -> Result<Compiled, AllocError>
    requires valid { IsValidMap map.now }
    requires some { 1 ≤ options.now.threads }
    requires not_too_many { options.now.threads ≤ 64 }
    ensures { IfOk result (λ compiled. IsCompiled map.now options.now compiled) }
{
    let (built, kept) = build_map(rt, alloc, map, options.threads, options.faces)?;
    let contacts = touches(alloc, &built.tree)?;
    let prepared = prepare(alloc, map, built, &contacts)?;
    match prepared {
        Prepared::Leak {
            file,
            entity,
            trail,
        } => Ok(Compiled::Leak {
            file,
            entity,
            trail,
        }),
        Prepared::Marked {
            sealed,
            built,
            world,
        } => {
            let parts = surface_parts(kept, contacts);
            let made = sections(rt, alloc, map, &world, parts, options);
            let asked = make_asked(rt, alloc, &world, made, options, gate);
            with_asked(sealed, built, world, asked)
        }
    }
}

/// A tree with rows and sections in a file, with its world and what is counted, where there was memory for what is asked for.
fn with_asked(
    sealed: bool,
    built: Built,
    world: World,
    asked: Result<Asked, AllocError>,
) -> Result<Compiled, AllocError>
    ensures { IfOk result (λ compiled. IsCounted sealed built.brushes built.flat built.tree world asked compiled) }
{
    let asked = asked?;
    let rows = asked.rows.as_slice();
    let summary = count(sealed, built.brushes, built.flat, &world, rows);
    Ok(Compiled::Done {
        file: new_file(built.tree, Some(asked.rows), asked.sections),
        world,
        summary,
    })
}

/// What the surface is cut from, where brushes were kept for it. Else the contacts are let go of.
fn surface_parts(kept: Option<Brushes>, contacts: TouchList) -> Option<SurfaceParts>
    ensures { result ≡ parts_with contacts kept }
{
    let brushes = kept?;
    Some(SurfaceParts {
        list: brushes.list,
        book: brushes.book,
        contacts,
    })
}
