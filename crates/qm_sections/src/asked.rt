ghost use Rattle.std.specs.Prelude.{◌≡◌, IfOk, OnOk, IfSome, is_some};
ghost use Rattle.qm_grammar.specs.Valid.{IsValidMap};
ghost use Rattle.qm_formats.specs.TreeFile.{AreSections};
ghost use Rattle.qm_face_sections.specs.CutTrees.{HasSurfaceOf};
ghost use Rattle.qm_statement.specs.AskedSections.{AreSectionsAsked};
ghost use Rattle.qm_sections.specs.PartsOfMap.{AreSurfaceParts};
ghost use Rattle.qm_sections.specs.inner.PartsAdded.{AreHullsAdded, AreModelsAdded, AreFacesAdded};

use crate::face_section::face_section;
use crate::hull_sections::hull_sections;
use crate::model_section::model_section;
use crate::surface_parts::SurfaceParts;
use qm_commands::Options;
use qm_file::Section;
use qm_lists::Items;
use qm_mapfile::MapFile;
use qm_portal::World;
use qm_tree::Tree;
use std::alloc::{AllocError, Global};
use std::thread::Threads;

/// The sections that the options ask for, in the order of their kinds, for a file of the tree of a world of a valid map. Where the
/// options ask for several workers, both hulls are built beside one another, and so are their halves. What the surface is cut from is
/// let go of.
pub fn sections<R: Threads + Sync>(
    rt: &R,
    alloc: Global,
    map: &MapFile,
    world: &World,
    parts: Option<SurfaceParts>,
    options: &Options,
) -> Result<Items<Section>, AllocError>
    requires valid { IsValidMap map.now }
    requires surface { HasSurfaceOf map.now world.now.tree }
    requires parts { IfSome parts (AreSurfaceParts map.now world.now.tree) }
    requires parts_asked { is_some parts ≡ options.now.faces }
    ensures asked { IfOk result (AreSectionsAsked map.now world.now.tree options.now) }
    ensures can_stand { IfOk result AreSections }
{
    let mut all = Vec::new(alloc);
    add_hulls(rt, alloc, map, options, &mut all)?;
    add_models(alloc, map, world, options, &mut all)?;
    add_faces(alloc, map, world.tree(), parts, &mut all)?;
    Ok(Items::from_vec(all))
}

/// Adds the sections of both hulls at the end, where they are asked for.
fn add_hulls<R: Threads + Sync>(
    rt: &R,
    alloc: Global,
    map: &MapFile,
    options: &Options,
    all: &mut Vec<Section>,
) -> Result<(), AllocError>
    requires { IsValidMap map.now }
    ensures { OnOk result (AreHullsAdded options.now.hulls map.now all.old.items all.new.items) }
{
    if !options.hulls {
        return Ok(());
    }
    let (first, second) = hull_sections(rt, alloc, map, options.threads)?;
    all.push(first)?;
    all.push(second)?;
    Ok(())
}

/// Adds the section of the brush models at the end, where they are asked for.
fn add_models(
    alloc: Global,
    map: &MapFile,
    world: &World,
    options: &Options,
    all: &mut Vec<Section>,
) -> Result<(), AllocError>
    requires { IsValidMap map.now }
    ensures { OnOk result (AreModelsAdded options.now.models map.now world.now.tree all.old.items all.new.items) }
{
    if !options.models {
        return Ok(());
    }
    let section = model_section(alloc, map, world)?;
    all.push(section)?;
    Ok(())
}

/// Adds the section of the faces at the end, where there are parts to cut the surface from.
fn add_faces(
    alloc: Global,
    map: &MapFile,
    tree: &Tree,
    parts: Option<SurfaceParts>,
    all: &mut Vec<Section>,
) -> Result<(), AllocError>
    requires surface { HasSurfaceOf map.now tree.now }
    requires parts { IfSome parts (AreSurfaceParts map.now tree.now) }
    ensures { OnOk result (AreFacesAdded (is_some parts) map.now tree.now all.old.items all.new.items) }
{
    let Some(parts) = parts else {
        return Ok(());
    };
    let section = face_section(alloc, map, tree, &parts)?;
    all.push(section)?;
    Ok(())
}
