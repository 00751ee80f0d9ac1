ghost use Rattle.std.specs.Prelude.{◌≡◌, ◌<◌, length};
ghost use Rattle.qm_drawn.specs.Brushes.{world_brushes, entity_brushes, first_texture, contents_of_brush};

use qm_contents::{Contents, of_texture};
use qm_mapfile::{Brush, MapFile};

/// The brushes of the world, the map's first entity.
pub(crate) fn world_brushes(map: &MapFile) -> &[Brush]
    ensures { result.now ≡ world_brushes map.now }
{
    match map.entities.as_slice() {
        [world, ..] => world.brushes.as_slice(),
        [] => &[],
    }
}

/// The brushes of an entity.
pub(crate) fn entity_brushes(map: &MapFile, entity: u64) -> &[Brush]
    requires { entity < length map.now.entities }
    ensures { result.now ≡ entity_brushes map.now entity }
{
    map.entities.as_slice()[entity as usize].brushes.as_slice()
}

/// The contents of a brush, which the texture's name on its first face gives; `None` for clip.
pub(crate) fn contents_of_brush(brush: &Brush) -> Option<Contents>
    ensures { result ≡ contents_of_brush brush.now }
{
    of_texture(first_texture(brush))
}

/// The name of the texture on the first face.
fn first_texture(brush: &Brush) -> &[u8]
    ensures { result.now ≡ first_texture brush.now.faces }
{
    match brush.faces.as_slice() {
        [face, ..] => face.texture.as_slice(),
        [] => b"",
    }
}
