//! The sections of both hulls.

ghost use Rattle.std.specs.Prelude.{◌≡◌, ◌⊎◌, IfOk};
ghost use Rattle.qm_mapfile.specs.declared.entity.MapFile.{MapFile};
ghost use Rattle.qm_grammar.specs.Valid.{IsValidMap};
ghost use Rattle.qm_hull_trees.specs.HullBoxes.{hull_box};
ghost use Rattle.qm_hull_trees.specs.Hull.{IsHull};
ghost use Rattle.qm_sections.specs.inner.SectionsThatFit.{IsHullThatFits};

use crate::section_of_bytes::section_of_bytes;
use qm_file::{Section, TreeFile, encode};
use qm_hull::{hull, hulls_halves};
use qm_mapfile::MapFile;
use std::alloc::{AllocError, Global};
use std::thread::Threads;

/// The sections of both hulls of a map, which are built beside one another where more than one thread is asked for.
pub(crate) fn hull_sections<R: Threads + Sync>(
    rt: &R,
    alloc: Global,
    map: &MapFile,
    threads: u8,
) -> Result<(Section, Section), AllocError>
    requires { IsValidMap map.now }
    ensures first { IfOk result (λ both. IsHullThatFits map.now 1 both.0) }
    ensures second { IfOk result (λ both. IsHullThatFits map.now 2 both.1) }
{
    if threads > 1 {
        let (first, second) = hulls_halves(rt, alloc, map)?;
        Ok((
            section_of_file(alloc, 1, &first)?,
            section_of_file(alloc, 2, &second)?,
        ))
    } else {
        Ok((hull_section(alloc, map, 1)?, hull_section(alloc, map, 2)?))
    }
}

/// The section of one hull. Its tree is let go of.
fn hull_section(alloc: Global, map: &MapFile, which: u8) -> Result<Section, AllocError>
    requires valid { IsValidMap map.now }
    requires which { (which ≡ 1) ⊎ (which ≡ 2) }
    ensures { IfOk result (IsHullThatFits map.now which) }
{
    let file = hull(alloc, map, which)?;
    section_of_file(alloc, which, &file)
}

/// The section of the hull that is in a file.
fn section_of_file(alloc: Global, which: u8, file: &TreeFile) -> Result<Section, AllocError>
    ensures { IfOk result (λ section. (map : MapFile) → IsHull map (hull_box which) file.now → IsHullThatFits map which section) }
{
    let bytes = encode(alloc, file)?;
    Ok(section_of_bytes(which, bytes))
}
