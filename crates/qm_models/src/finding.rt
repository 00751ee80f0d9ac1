ghost use Rattle.std.specs.Prelude.{◌<◌, ◌+◌, length, IfOk, OnOk, MatchOption};
ghost use Rattle.qm_grammar.specs.Valid.{IsValidMap};
ghost use Rattle.qm_drawn.specs.Solids.{entity_solids};
ghost use Rattle.qm_outlines.specs.HeldPoints.{HasNoFull};
ghost use Rattle.qm_model_sections.specs.MapModels.{AreBrushModelsOf};
ghost use Rattle.qm_models.specs.inner.OneModel.{IsBrushModelOf, AreBrushModelsUpTo};

use crate::numbers::numbers_of;
use crate::outline::outline_of;
use crate::plain_model::plain_model;
use qm_brush::brushes_of;
use qm_build::build;
use qm_geom::PlaneBook;
use qm_mapfile::MapFile;
use qm_model_file::BrushModel;
use qm_portal::World;
use std::alloc::{AllocError, Global};

/// The brush models of a valid map beside a world, in the order of their entities: one for each entity but the first that has
/// a full brush. The work for a model grows with its brushes and with the leaves that they reach.
pub fn models(alloc: Global, map: &MapFile, world: &World) -> Result<Vec<BrushModel>, AllocError>
    requires { IsValidMap map.now }
    ensures { IfOk result (λ models. AreBrushModelsOf map.now world.now.tree models.items) }
{
    let mut models = Vec::new(alloc);
    for entity in 1..map.entities.len() as u64 {
        add_model(alloc, map, world, entity, &mut models)?;
    }
    Ok(models)
}

/// Adds the model of an entity, if it has one.
fn add_model(
    alloc: Global,
    map: &MapFile,
    world: &World,
    entity: u64,
    models: &mut Vec<BrushModel>,
) -> Result<(), AllocError>
    requires valid { IsValidMap map.now }
    requires there { entity < length map.now.entities }
    ensures { OnOk result (AreBrushModelsUpTo map.now world.now.tree entity models.old.items → AreBrushModelsUpTo map.now world.now.tree (entity + 1) models.new.items) }
{
    match model_of(alloc, map, world, entity)? {
        Some(model) => {
            models.push(model)?;
            Ok(())
        }
        None => Ok(()),
    }
}

/// The model of an entity, whose tree has a book of its own. `None` exactly where no brush of it is full.
fn model_of(
    alloc: Global,
    map: &MapFile,
    world: &World,
    entity: u64,
) -> Result<Option<BrushModel>, AllocError>
    requires valid { IsValidMap map.now }
    requires there { entity < length map.now.entities }
    ensures { IfOk result (λ found. MatchOption found (HasNoFull (entity_solids map.now entity)) (IsBrushModelOf map.now world.now.tree entity)) }
{
    let mut book = PlaneBook::new(alloc);
    let list = brushes_of(alloc, map, entity, &mut book)?;
    match outline_of(alloc, &list, &book, world.tree())? {
        None => Ok(None),
        Some(outline) => {
            let leaves = numbers_of(alloc, world, &outline.touched)?;
            let tree = build(alloc, &list, &book)?;
            Ok(Some(plain_model(alloc, entity, &outline.extents, leaves, tree)))
        }
    }
}
