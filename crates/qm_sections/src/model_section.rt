//! The section of brush models.

ghost use Rattle.std.specs.Prelude.{◌≡◌, ◌<◌, ◌^◌, IfOk, length};
ghost use Rattle.qm_grammar.specs.Valid.{IsValidMap};
ghost use Rattle.qm_contacts.specs.NumberedLeaves.{numbered_leaves};
ghost use Rattle.qm_formats.specs.Fields.{AreBytes};
ghost use Rattle.qm_sections.specs.inner.SectionsThatFit.{AreModelsThatFit};

use crate::section_of_bytes::section_of_bytes;
use qm_file::Section;
use qm_mapfile::MapFile;
use qm_model_file::encode_models;
use qm_models::models;
use qm_portal::World;
use std::alloc::{AllocError, Global};

/// The kind of the section of brush models.
const MODELS: u8 = 3;

/// The section of the brush models of a map beside the tree of its world.
pub(crate) fn model_section(
    alloc: Global,
    map: &MapFile,
    world: &World,
) -> Result<Section, AllocError>
    requires { IsValidMap map.now }
    ensures { IfOk result (AreModelsThatFit map.now world.now.tree) }
{
    counts_fit(map, world);
    let models = models(alloc, map, world)?;
    let bytes = encode_models(alloc, &models)?;
    Ok(section_of_bytes(MODELS, bytes))
}

/// A map in memory has fewer entities than 2^64, and a world fewer numbered leaves. This does nothing: its clauses are what lengths
/// of lists in memory are.
fn counts_fit(map: &MapFile, world: &World)
    ensures entities { length map.now.entities < 2 ^ 64 }
    ensures leaves { length (numbered_leaves world.now.tree) < 2 ^ 64 }
{
    let _ = map.entities.len();
    let _ = world.leaves();
}
