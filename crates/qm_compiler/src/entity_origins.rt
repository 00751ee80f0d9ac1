//! Where the entities of a map stand.

ghost use Rattle.std.specs.Prelude.{IfOk};
ghost use Rattle.qm_grammar.specs.Valid.{IsValidMap};
ghost use Rattle.qm_statement.specs.Origins.{AreOriginsOf};

use qm_flood::Origin;
use qm_map::EntityOrigin;
use qm_mapfile::MapFile;
use std::alloc::{AllocError, Global};

/// Where the entities of a map stand that have the key `origin`, but for the world.
pub fn origins_of(alloc: Global, map: &MapFile) -> Result<Vec<Origin>, AllocError>
    requires { IsValidMap map.now }
    ensures { IfOk result (λ origins. AreOriginsOf map.now origins.items) }
{
    let entities = map.entities.as_slice();
    let mut origins = Vec::new(alloc);
    for k in 1..entities.len() {
        if let Some(point) = entities[k].origin() {
            origins.push(Origin {
                entity: k as u64,
                point,
            })?;
        }
    }
    Ok(origins)
}
